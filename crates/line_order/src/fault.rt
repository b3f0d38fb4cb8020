// Why a file is not in order.
ghost use Rattle.std.specs.Prelude.{◌≡◌, None, Some, if◌then◌else◌};
ghost use Rattle.netlist_spec.specs.Ordered.{unordered};
ghost use Rattle.line_order.specs.Faults.{told_fault};

use std::alloc::AllocError;

/// The first line at fault, by its number from 1.
#[derive(Debug, Drop)]
pub enum OrderFault {
    /// The line drives a net again, reads a net that no earlier line gives, passes on a net without a source or is clocked
    /// otherwise, or it is a second `.model`.
    Unordered(u32),
    /// The line is a `.subckt`.
    HasSubckt(u32),
    NoMemory,
}

impl From<AllocError> for OrderFault {
    ghost use Rattle.std.specs.Prelude.{◌≡◌};
    ghost use Rattle.line_order.specs.declared.fault.OrderFault.TheVariants.{NoMemory};

    ghost from_gives = { λ error fault. fault ≡ NoMemory };

    fn from(_error: AllocError) -> OrderFault {
        OrderFault::NoMemory
    }
}

// The fault of a line that is unordered where the test says so.
pub(crate) fn unordered_if(at_fault: bool, line: u32) -> Option<OrderFault>
    ensures { told_fault result ≡ (if at_fault then Some (unordered line) else None) }
{
    if at_fault {
        Some(OrderFault::Unordered(line))
    } else {
        None
    }
}
