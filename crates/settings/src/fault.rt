// Why a settings file is refused.
ghost use Rattle.std.specs.Prelude.{◌≡◌, Err};
ghost use Rattle.guard_spec.specs.SettingsFile.{missing, bad_value, unknown_key};
ghost use Rattle.settings.specs.Faults.{fault_of, IsFault};

use crate::Text;
use std::alloc::{AllocError, AllocFailed, Global};

/// The first fault of a settings file, in the order of the keys. A key is its path in the document.
#[derive(Debug, Drop)]
pub enum SetFault {
    /// The bytes are no UTF-8, or the text is no TOML document.
    NotToml,
    /// A key that is needed is absent.
    Missing(Text),
    /// The value of the key isn't of the form that the key asks for.
    BadValue(Text),
    /// The document has this other key.
    UnknownKey(Text),
    /// `check` is an array of texts, and no check matrix.
    BadShape,
    NoMemory,
}

impl From<AllocError> for SetFault {
    ghost use Rattle.std.specs.Prelude.{◌≡◌};
    ghost use Rattle.settings.specs.declared.fault.SetFault.TheVariants.{NoMemory};

    ghost from_gives = { λ error fault. fault ≡ NoMemory };

    fn from(_error: AllocError) -> SetFault {
        SetFault::NoMemory
    }
}

impl<T: Drop> From<AllocFailed<T>> for SetFault {
    ghost use Rattle.std.specs.Prelude.{◌≡◌};
    ghost use Rattle.settings.specs.declared.fault.SetFault.TheVariants.{NoMemory};

    ghost from_gives = { λ error fault. fault ≡ NoMemory };

    fn from(_error: AllocFailed<T>) -> SetFault {
        SetFault::NoMemory
    }
}
