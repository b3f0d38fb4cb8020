// Why a script is refused.

use std::alloc::AllocError;

/// The first line at fault of a script, by its number from 1.
#[derive(Debug, Drop)]
pub enum ScriptFault {
    /// The line isn't a cycle, a name and `0` or `1`, or an earlier line has the same cycle and cell.
    BadScript(u32),
    /// No cell has this output net.
    NoSuchCell(u32),
    /// Sixteen earlier lines have the same cycle.
    MoreThanSixteen(u32),
    NoMemory,
}

impl From<AllocError> for ScriptFault {
    ghost use Rattle.std.specs.Prelude.{◌≡◌};
    ghost use Rattle.fault_script.specs.declared.fault.ScriptFault.TheVariants.{NoMemory};

    ghost from_gives = { λ error fault. fault ≡ NoMemory };

    fn from(_error: AllocError) -> ScriptFault {
        ScriptFault::NoMemory
    }
}
