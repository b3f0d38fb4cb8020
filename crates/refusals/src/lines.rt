// Lines on the error output. They take no memory.
ghost use Rattle.std.specs.Prelude.{◌++◌, codes, decimal};
ghost use Rattle.imp_io.specs.Sink.{Puts};
ghost use Rattle.program_spec.specs.ErrorLines.{cannot_read_text, error_line, refusal_text};
ghost use Rattle.refusals.specs.Lines.{front_text, tail_text, tailed_line, told_text};
ghost use Rattle.refusals.specs.Refusal.{refusal_of};

use crate::Refusal;
use crate::escaped::{put_each, put_escaped, put_pair};
use crate::told::{Tail, Told, told_of};
use imp_io::{Sink, SinkFault, put_all};
use itoa::Buffer;

/// Puts the line of a refusal.
pub fn put_refusal<E: Sink>(refusal: &Refusal, err: &mut E) -> Result<(), SinkFault>
    ensures { Puts (E.seen err.old) (error_line (refusal_text (refusal_of refusal.now))) result (E.seen err.new) }
{
    put_told(&told_of(refusal), err)
}

/// Puts the line that a file can't be read.
pub fn put_unread<E: Sink>(name: &str, err: &mut E) -> Result<(), SinkFault>
    ensures { Puts (E.seen err.old) (error_line (cannot_read_text name.now)) result (E.seen err.new) }
{
    put_tailed(
        b"impeccable: cannot read ",
        Tail::Name(name.as_bytes()),
        err,
    )
}

// The line of what is told.
fn put_told<E: Sink>(told: &Told<'_>, err: &mut E) -> Result<(), SinkFault>
    ensures { Puts (E.seen err.old) (error_line (told_text told.now)) result (E.seen err.new) }
{
    put_front(told.number.as_bytes(), told.line, err)?;
    put_tailed(told.text.as_bytes(), told.tail, err)
}

// What a line begins with: the number of a refusal, and that of a line of the input, where there is one.
fn put_front<E: Sink>(number: &[u8], line: Option<u32>, err: &mut E) -> Result<(), SinkFault>
    ensures { Puts (E.seen err.old) (front_text number.now line) result (E.seen err.new) }
{
    match line {
        Some(line) => {
            let mut digits = Buffer::new();
            let line = digits.format(line).as_bytes();
            put_all(&[b"impeccable: ", number, b" line ", line, b" "], err)
        }
        None => put_all(&[b"impeccable: ", number, b" "], err),
    }
}

// A text, what is told behind it, and the end of the line.
fn put_tailed<E: Sink>(text: &[u8], tail: Tail<'_>, err: &mut E) -> Result<(), SinkFault>
    ensures { Puts (E.seen err.old) (tailed_line text.now tail.entry) result (E.seen err.new) }
{
    err.put(text)?;
    put_tail(tail, err)?;
    err.put(b"\n")
}

fn put_tail<E: Sink>(tail: Tail<'_>, err: &mut E) -> Result<(), SinkFault>
    ensures { Puts (E.seen err.old) (tail_text tail.entry) result (E.seen err.new) }
{
    match tail {
        Tail::Nothing => Ok(()),
        Tail::Name(name) => put_escaped(name, err),
        Tail::Pair(one, other) => put_pair(one, other, err),
        Tail::Each(names) => put_each(names, err),
        Tail::Below(d, need) => put_below(d, need, err),
    }
}

// A number, and the greater one that it should reach.
fn put_below<E: Sink>(d: u8, need: u8, err: &mut E) -> Result<(), SinkFault>
    ensures { Puts (E.seen err.old) (decimal d ++ codes " below " ++ decimal need) result (E.seen err.new) }
{
    let mut one = Buffer::new();
    let mut other = Buffer::new();
    let d = one.format(d).as_bytes();
    let need = other.format(need).as_bytes();
    put_all(&[d, b" below ", need], err)
}
