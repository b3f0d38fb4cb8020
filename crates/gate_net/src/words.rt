// The words into which the bits of a machine are put.

use crate::NetId;
use arrayvec::ArrayVec;

/// A bit that a machine keeps or gives out: a latch or an output, by its number in file order.
#[derive(Clone, Copy, Debug, PartialEq, Eq)]
pub enum Bit {
    Latch(u32),
    Output(u32),
}

/// The nets of one word: those of its data places, and those of its check bits.
#[derive(Debug, Drop)]
pub struct WordNets {
    pub places: ArrayVec<NetId, 12>,
    pub checks: ArrayVec<NetId, 16>,
}
