// What a text in Berkeley BLIF declares.

use crate::{Cover, Name, NameId, Names};

/// A file. Its first model is the main one.
#[derive(Drop)]
pub struct File {
    pub models: Vec<Model>,
}

/// One model, with its distinct nets in order of first appearance. Lines are numbered from 1.
#[derive(Drop)]
pub struct Model {
    pub name: Name,
    pub line: u32,
    pub names: Names,
    pub inputs: Vec<Port>,
    pub outputs: Vec<Port>,
    pub clocks: Vec<Port>,
    pub statements: Vec<Located>,
}

/// A name that a port line declares, and the line.
#[derive(Clone, Copy, Debug)]
pub struct Port {
    pub name: NameId,
    pub line: u32,
}

/// A statement and its line.
#[derive(Drop)]
pub struct Located {
    pub line: u32,
    pub what: Statement,
}

#[derive(Drop)]
pub enum Statement {
    Names {
        ins: Vec<NameId>,
        out: NameId,
        cover: Cover,
    },
    Latch {
        d: NameId,
        q: NameId,
        clocking: Clocking,
        init: Option<u8>,
    },
    Subckt {
        model: Name,
        binds: Vec<Bind>,
    },
}

/// How a latch is clocked: by no pair, or by an edge of a control. No control is `NIL`.
#[derive(Clone, Copy, Debug)]
pub enum Clocking {
    Plain,
    Edge {
        rising: bool,
        control: Option<NameId>,
    },
}

/// A port of a placed model and the net that stands for it.
#[derive(Debug, Drop)]
pub struct Bind {
    pub formal: Name,
    pub actual: NameId,
}
