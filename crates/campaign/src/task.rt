// What the runs of a campaign have in common.

use block_code::Code;
use encode_state::types::Layout;
use settings::Mode;
use sim_text::Stimulus;

/// The stimulus, what the source shows in each of its cycles, how many outputs the source has, and how the outputs of the
/// guard are read.
#[derive(Clone, Copy)]
pub(crate) struct Task<'a> {
    pub(crate) stimulus: &'a Stimulus,
    pub(crate) wanted: &'a [Vec<bool>],
    pub(crate) outputs: u32,
    pub(crate) layout: &'a Layout,
    pub(crate) code: &'a Code,
    pub(crate) mode: Mode,
    pub(crate) bound: u8,
}
