// Covers of one output.

/// A row of a cover. Bit i of both numbers speaks of input i: `care` has a 1 where the row asks for a bit, and
/// `value` has that bit. A place with `-` has 0 in both.
#[derive(Clone, Copy, Debug, PartialEq, Eq)]
pub struct Row {
    pub care: u16,
    pub value: u16,
}

/// A cover: its rows, and whether their last character is `1`. Without rows it is on, and its value is 0.
#[derive(Debug, Drop)]
pub struct Cover {
    pub on: bool,
    pub rows: Vec<Row>,
}
