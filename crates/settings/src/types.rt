// What a settings file stands for.

use crate::Name;
use block_code::Code;
use linear_layer::NamedLinear;
use sbox_table::NamedTable;
use std::marker::Model;

/// What a guard does about faulty cells: its rails tell of them, or its cells correct them.
#[derive(Clone, Copy, Debug, PartialEq, Eq)]
pub enum Mode {
    Detect,
    Correct,
}

/// The settings of a guard: its mode, the bound on its faulty cells, from 1 to 16, and its code. The words over
/// the latches and over the outputs are lists of 1 to k names, where k is the number of data places of the code. The
/// tables and the layers of the library stand in byte order of their names, which are distinct, also between the two.
#[derive(Debug, Drop)]
pub struct Settings {
    pub mode: Mode,
    pub bound: u8,
    pub code: Code,
    pub state_words: Option<Vec<Vec<Name>>>,
    pub output_words: Option<Vec<Vec<Name>>>,
    pub tables: Vec<NamedTable>,
    pub linears: Vec<NamedLinear>,
}

impl Model for Settings {
    ghost use Rattle.guard_spec.specs.Words.{Settings as GuardSettings};

    ghost Value = { GuardSettings };

    ghost use Rattle.settings.specs.Types.{settings_in, AreSettings};

    ghost view = { settings_in };

    ghost invariant = { AreSettings };
}
