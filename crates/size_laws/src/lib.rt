//! Laws of plain sizes and of the names of labels: each is the contract of a function that does nothing.
#![tactic(auto)]

mod cones;
mod labels;
mod sizes;
mod sums;

pub use cones::walks_mark_cones;
pub use labels::{
    distinct_labels_have_distinct_names, guard_names_are_distinct, labels_by_bits_stand_in_order,
    labels_have_no_repeat, names_taken_over_are_distinct,
};
pub use sizes::{
    cones_have_one_cost, gate_cones_have_one_cost, machines_have_one_size, sources_have_one_size,
};
pub use sums::{
    bit_costs_add_up, partial_sizes_add_up, partial_sizes_stay_below, sizes_stand_alone,
    word_costs_add_up,
};
