// Why a stimulus is refused.

use std::alloc::AllocError;

/// The first line at fault of a stimulus, by its number from 1.
#[derive(Debug, Drop)]
pub enum StimFault {
    /// The line isn't one word with one `0` or `1` for each data input, nor `-` where there is none, or it would be cycle 1,000,000.
    BadStimulus(u32),
    NoMemory,
}

impl From<AllocError> for StimFault {
    ghost use Rattle.std.specs.Prelude.{◌≡◌};
    ghost use Rattle.sim_text.specs.declared.fault.StimFault.TheVariants.{NoMemory};

    ghost from_gives = { λ error fault. fault ≡ NoMemory };

    fn from(_error: AllocError) -> StimFault {
        StimFault::NoMemory
    }
}
