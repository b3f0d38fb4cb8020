// A guard while it is built.

use gate_net::{GateNet, NetId};

/// The gates so far, and the cells of the bits so far, in the order in which they were added: each is the last gate of a
/// range of its own.
#[derive(Drop)]
pub struct Sketch {
    pub net: GateNet,
    pub cells: Vec<NetId>,
}
