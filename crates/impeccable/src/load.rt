// The load of a file that a command names.
ghost use Rattle.imp_io.specs.Files.{IsLater};
ghost use Rattle.impeccable.specs.Answers.{KeepsOwn};
ghost use Rattle.impeccable.specs.Ended.{part_answer};
ghost use Rattle.impeccable.specs.Steps.{LoadsNamed};

use crate::Refusal;
use crate::ended::Stop;
use blif_read::Text;
use imp_io::{Files, LoadFault};
use std::alloc::Global;

pub(crate) fn load_named<'a, F: Files>(
    alloc: Global,
    files: &mut F,
    name: &'a str,
    most: usize,
) -> Result<Vec<u8>, Stop<'a>>
    ensures named { LoadsNamed (F.seen files.old) name.now most result (F.seen files.new) }
    ensures own { KeepsOwn (F.seen files.old) (F.seen files.new) (part_answer result) }
    ensures later { IsLater (F.seen files.old) (F.seen files.new) }
{
    match files.load(alloc, name, most) {
        Ok(bytes) => Ok(bytes),
        Err(LoadFault::Failed) => Err(Stop::ReadFault(name)),
        Err(LoadFault::TooLong) => {
            let name = Text::new(alloc, name.as_bytes())?;
            Err(Stop::Refused(Refusal::FileTooLong(name)))
        }
        Err(LoadFault::NoMemory) => Err(Stop::NoMemory),
    }
}
