// The rows that stand behind the line of a gate.
ghost use Rattle.std.specs.Prelude.{◌≡◌, ◌++◌, ◌∷◌, [], length};
ghost use Rattle.imp_io.specs.Blocks.{Gives};
ghost use Rattle.netlist_spec.specs.Gates.{pair_row, pair_rows};
ghost use Rattle.netlist_spec.specs.Statements.{bit_char};
ghost use Rattle.gate_net.specs.Gate.{gate_form};
ghost use Rattle.blif_write.specs.Lines.{gate_rows_text, rows_text};

use gate_net::{Gate, Op};
use imp_io::{Blocks, Sink};

pub(crate) fn put_rows<O: Sink>(gate: &Gate, out: &mut Blocks<'_, O>)
    ensures { Gives O.seen out.old (gate_rows_text (gate_form gate.now)) out.new }
{
    match *gate {
        Gate::Const(false) => {}
        Gate::Const(true) => out.put(b"1\n"),
        Gate::One { inv: false, .. } => out.put(b"1 1\n"),
        Gate::One { inv: true, .. } => out.put(b"0 1\n"),
        Gate::Two { op, .. } => put_table(op, out),
    }
}

// A row for each pair of bits with the answer 1.
fn put_table<O: Sink>(op: Op, out: &mut Blocks<'_, O>)
    ensures { Gives O.seen out.old (rows_text 2 (pair_rows op)) out.new }
{
    put_pair(op, false, false, out);
    put_pair(op, false, true, out);
    put_pair(op, true, false, out);
    put_pair(op, true, true, out);
}

fn put_pair<O: Sink>(op: Op, a: bool, b: bool, out: &mut Blocks<'_, O>)
    ensures { Gives O.seen out.old (rows_text 2 (pair_row op a b)) out.new }
{
    if !op.answer(a, b) {
        return;
    }
    out.put(&[char_of(a), char_of(b), b' ', b'1', b'\n']);
}

pub(crate) fn char_of(bit: bool) -> u8
    ensures { result ≡ bit_char bit }
{
    if bit { b'1' } else { b'0' }
}
