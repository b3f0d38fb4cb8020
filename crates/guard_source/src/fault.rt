// Why a source isn't guarded.

use elaborate::ElabFault;
use encode_state::LayoutFault;
use std::alloc::AllocError;

/// The first refusal of a source with its settings.
#[derive(Drop)]
pub enum GuardFault {
    /// The source has no meaning with the library of the settings.
    Elab(ElabFault),
    /// The words of the settings don't fit the source.
    Words(LayoutFault),
    /// The plain size of the guard is above 1,000,000.
    TooLarge,
    NoMemory,
}

impl From<AllocError> for GuardFault {
    ghost use Rattle.std.specs.Prelude.{◌≡◌};
    ghost use Rattle.guard_source.specs.declared.fault.GuardFault.TheVariants.{NoMemory};

    ghost from_gives = { λ error fault. fault ≡ NoMemory };

    fn from(_error: AllocError) -> GuardFault {
        GuardFault::NoMemory
    }
}

impl From<ElabFault> for GuardFault {
    ghost use Rattle.std.specs.Prelude.{◌≡◌};
    ghost use Rattle.guard_source.specs.declared.fault.GuardFault.TheVariants.{Elab};

    ghost from_gives = { λ error fault. fault ≡ Elab error };

    fn from(fault: ElabFault) -> GuardFault {
        GuardFault::Elab(fault)
    }
}

impl From<LayoutFault> for GuardFault {
    ghost use Rattle.std.specs.Prelude.{◌≡◌};
    ghost use Rattle.guard_source.specs.declared.fault.GuardFault.TheVariants.{Words};

    ghost from_gives = { λ error fault. fault ≡ Words error };

    fn from(fault: LayoutFault) -> GuardFault {
        GuardFault::Words(fault)
    }
}
