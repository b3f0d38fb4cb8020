// The words of a guard.

use std::marker::Model;

/// The words over the latches and those over the outputs of a source: numbers, in the order of their lines.
#[derive(Debug, Drop)]
pub struct Layout {
    pub state: Vec<Vec<u32>>,
    pub output: Vec<Vec<u32>>,
}

impl Model for Layout {
    ghost use Rattle.guard_spec.specs.Words.{Layout as GuardLayout};

    ghost Value = { GuardLayout };

    ghost use Rattle.encode_state.specs.Types.{layout_in};

    ghost view = { layout_in };
}
