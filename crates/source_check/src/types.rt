// What an elaboration starts from.

use source_nets::Survey;

/// What is known of a source that has a meaning: what its statements are, which of its models are used, for each used model
/// an order of its statements in which each net is settled before it is read, by their places, and what each statement of the
/// main model costs, at most 1,000,000 together.
#[derive(Drop)]
pub struct Checked {
    pub survey: Survey,
    pub used: Vec<bool>,
    pub orders: Vec<Vec<usize>>,
    pub costs: Vec<u32>,
}
