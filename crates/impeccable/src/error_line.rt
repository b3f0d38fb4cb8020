// Lines on the error output. They take no memory.
ghost use Rattle.impeccable.specs.Ended.{answer_of};
ghost use Rattle.impeccable.specs.Says.{PutsAnswer, Says};

use crate::ended::{Ended, Stop};
use imp_io::{Sink, SinkFault};
use refusals::{put_refusal, put_unread};

/// Puts the line of an answer to the error output, and nothing for a success. What the puts answer changes nothing.
pub(crate) fn tell<E: Sink>(ended: &Ended<'_>, err: &mut E)
    ensures { Says (answer_of ended.now) (E.seen err.old) (E.seen err.new) }
{
    let _ = put_answer(ended, err);
}

// Puts the line up to the first put that fails.
fn put_answer<E: Sink>(ended: &Ended<'_>, err: &mut E) -> Result<(), SinkFault>
    ensures { PutsAnswer (answer_of ended.now) (E.seen err.old) result (E.seen err.new) }
{
    match ended {
        Ok(_) => Ok(()),
        Err(Stop::Usage) => err.put(
            b"impeccable: usage: flat NETLIST, code SETTINGS, guard SETTINGS NETLIST, sim NETLIST STIMULUS SCRIPT, audit NETLIST, campaign SETTINGS NETLIST STIMULUS CYCLE, demo N\n",
        ),
        Err(Stop::Refused(refusal)) => put_refusal(refusal, err),
        Err(Stop::ReadFault(name)) => put_unread(name, err),
        Err(Stop::WriteFault) => err.put(b"impeccable: cannot write\n"),
        Err(Stop::NoMemory) => err.put(b"impeccable: no memory\n"),
    }
}
