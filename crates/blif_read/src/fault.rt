// Why a text is refused.

use crate::{Name, Text};
use imp_text::What;
use std::alloc::AllocError;

/// The first line that fits no case of the grammar, by its number from 1, and the first test that it fails.
#[derive(Debug, Drop)]
pub enum BlifFault {
    /// The first word begins with `.` and is none of the eight words.
    UnknownStatement(u32, Text),
    /// The line is no row of the cover that directly precedes it, or no cover does.
    BadRow(u32),
    /// The row's last character differs from that of the cover's first row.
    MixedCover(u32),
    /// A `.latch` of another form.
    BadLatch(u32),
    /// No `.model` is before the line. The line is 0 where the text has no line with words.
    NoModel(u32),
    /// A name is longer than 255 bytes.
    LongName(u32),
    /// The line brings this count past its number.
    TooMany(u32, What),
    /// An earlier model has this name.
    TwiceModel(u32, Name),
    /// A port word of `.subckt` has no `=`, or an empty part.
    BadSubckt(u32),
    /// The line follows `.end` and isn't `.model`.
    AfterEnd(u32),
    /// `.model` without exactly one name, `.names` or `.subckt` without a word, or `.end` with a word.
    WordCount(u32),
    NoMemory,
}

impl From<AllocError> for BlifFault {
    ghost use Rattle.std.specs.Prelude.{◌≡◌};
    ghost use Rattle.blif_read.specs.declared.fault.BlifFault.TheVariants.{NoMemory};

    ghost from_gives = { λ error fault. fault ≡ NoMemory };

    fn from(_error: AllocError) -> BlifFault {
        BlifFault::NoMemory
    }
}
