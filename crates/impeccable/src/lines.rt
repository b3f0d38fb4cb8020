// Lines of a word and a number.
ghost use Rattle.imp_io.specs.Blocks.{Gives};
ghost use Rattle.program_spec.specs.Printed.{number_line};
ghost use Rattle.guard_tally.specs.Tallied.{lines_of};

use guard_tally::GuardTally;
use imp_io::{Blocks, Sink};
use itoa::Buffer;

/// The line of a word and a number.
pub(crate) fn put_number<O: Sink>(word: &[u8], n: u64, out: &mut Blocks<'_, O>)
    ensures { Gives O.seen out.old (number_line word.now n) out.new }
{
    let mut digits = Buffer::new();
    out.put_all(&[word, b" ", digits.format(n).as_bytes(), b"\n"]);
}

/// The five lines of a tally.
pub(crate) fn put_tally<O: Sink>(tally: &GuardTally, out: &mut Blocks<'_, O>)
    ensures { Gives O.seen out.old (lines_of tally.now) out.new }
{
    put_number(b"cells", tally.cells, out);
    put_number(b"right", tally.outcomes.right, out);
    put_number(b"alarmed", tally.outcomes.alarmed, out);
    put_number(b"decoded", tally.outcomes.decoded, out);
    put_number(b"wrong", tally.outcomes.wrong, out);
}
