// Why a source has no meaning.

use blif_read::{Name, Names, What};
use std::alloc::AllocError;

/// The first fault of a source in the order of these tests, and of one test the first in file order.
#[derive(Drop)]
pub enum ElabFault {
    /// The net has a second driver, or stands twice in `.inputs`, in `.outputs` or in `.clock`.
    Twice(Name),
    /// A `.subckt` names neither a model nor a library entry.
    NoSuchModel(Name),
    /// A formal is no port of the model, or is given twice, or an input port isn't given: the model and the port.
    BadPort(Name, Name),
    /// The model contains itself.
    Recursion(Name),
    /// A used model other than the main one has a latch: the model.
    LatchInside(Name),
    /// A chain of more than 16 `.subckt` leads to the model.
    Depth(Name),
    /// The net is read and has no driver.
    Undriven(Name),
    /// The output of a latch that is clocked otherwise than the first latch or by a control that isn't declared, or a clock
    /// net that is read.
    Clocking(Name),
    /// The driver of each net reads the next one, and that of the last the first.
    Loop(Names),
    /// A name of the main model that a netlist can't be written with.
    Reserved(Name),
    /// The main model passes the limit of this count.
    TooLarge(What),
    NoMemory,
}

impl From<AllocError> for ElabFault {
    ghost use Rattle.std.specs.Prelude.{◌≡◌};
    ghost use Rattle.source_check.specs.declared.fault.ElabFault.TheVariants.{NoMemory};

    ghost from_gives = { λ error fault. fault ≡ NoMemory };

    fn from(_error: AllocError) -> ElabFault {
        ElabFault::NoMemory
    }
}
