//! Gates that are numbered in the order in which they can be evaluated, and clocked machines over them.
#![tactic(auto)]

mod gate;
mod laws;
mod machine;
mod net;
mod words;

pub use gate::{Gate, NetId, Op};
pub use laws::{
    covers_have_gate_answers, gate_lists_have_one_evaluation, gates_answer_in_ranges,
    machines_have_one_cycle, written_files_have_the_values_of_gates,
};
pub use machine::{LatchRow, Machine};
pub use net::GateNet;
pub use words::{Bit, WordNets};
