// The command `demo N`.
ghost use Rattle.imp_io.specs.Blocks.{Gives};
ghost use Rattle.imp_io.specs.Files.{FilesSeen};
ghost use Rattle.imp_io.specs.Sink.{Puts};
ghost use Rattle.demo_laws.specs.DemoLaws.{IsDemoSize};
ghost use Rattle.demo_tally.specs.Tried.{summary_text};
ghost use Rattle.program_spec.specs.Commands.{demo as demo_command};
ghost use Rattle.impeccable.specs.declared.outcome.Outcome.{Outcome};
ghost use Rattle.impeccable.specs.Answers.{Answers};
ghost use Rattle.impeccable.specs.Demo.{EndsDemo};
ghost use Rattle.impeccable.specs.Ended.{answer_of};
ghost use Rattle.impeccable.specs.Outcome.{IsAnswer};

use crate::ended::{Ended, Success};
use crate::lines::{put_number, put_tally};
use demo_tally::{DemoTally, try_demo};
use imp_io::{Blocks, Sink, SinkFault};
use std::alloc::Global;

/// Writes what single faults do to the guard of the demo design of that size. No file is read.
pub(crate) fn write_demo<'a, O: Sink>(alloc: Global, size: u32, out: &mut O) -> Ended<'a>
    requires { IsDemoSize size }
    ensures answers { (files : FilesSeen) → Answers (demo_command size) files files (O.seen out.old) (O.seen out.new) (answer_of result) }
    ensures ends { (outcome : Outcome) → IsAnswer outcome (answer_of result) → EndsDemo size (O.seen out.old) (O.seen out.new) outcome }
{
    let tried = try_demo(alloc, size)?;
    write_lines(&tried, out)?;
    Ok(Success::Done)
}

fn write_lines<O: Sink>(tried: &DemoTally, out: &mut O) -> Result<(), SinkFault>
    ensures { Puts (O.seen out.old) (summary_text tried.now) result (O.seen out.new) }
{
    let mut blocks = Blocks::new(out);
    put_lines(tried, &mut blocks);
    blocks.flush()
}

// The sizes of the design, and the lines of the tally.
fn put_lines<O: Sink>(tried: &DemoTally, out: &mut Blocks<'_, O>)
    ensures { Gives O.seen out.old (summary_text tried.now) out.new }
{
    put_number(b"statements", u64::from(tried.statements), out);
    put_number(b"latches", u64::from(tried.latches), out);
    put_number(b"plain", u64::from(tried.plain), out);
    put_tally(&tried.tally, out);
}
