// Why names are no words.

use imp_text::Name;
use std::alloc::{AllocError, AllocFailed};

/// The first name that is wrong in the words of the settings.
#[derive(Debug, Drop)]
pub enum LayoutFault {
    /// The name of a state word is no latch output, or that of an output word no output.
    NoSuchNet(Name),
    /// The name stands twice in the state words, or twice in the output words.
    InTwoWords(Name),
    /// The latch or the output stands in none of the words that the settings give.
    NotInAWord(Name),
    NoMemory,
}

impl From<AllocError> for LayoutFault {
    ghost use Rattle.std.specs.Prelude.{◌≡◌};
    ghost use Rattle.encode_state.specs.declared.fault.LayoutFault.TheVariants.{NoMemory};

    ghost from_gives = { λ error fault. fault ≡ NoMemory };

    fn from(_error: AllocError) -> LayoutFault {
        LayoutFault::NoMemory
    }
}

impl<T: Drop> From<AllocFailed<T>> for LayoutFault {
    ghost use Rattle.std.specs.Prelude.{◌≡◌};
    ghost use Rattle.encode_state.specs.declared.fault.LayoutFault.TheVariants.{NoMemory};

    ghost from_gives = { λ error fault. fault ≡ NoMemory };

    fn from(_error: AllocFailed<T>) -> LayoutFault {
        LayoutFault::NoMemory
    }
}
