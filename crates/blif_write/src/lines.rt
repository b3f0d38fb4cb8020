// Lines and words of a written gate list.
ghost use Rattle.std.specs.Prelude.{◌≡◌, ◌∷◌, ◌++◌, [], ◌<◌, length, decimal, map, option_map, All, IfSome};
ghost use Rattle.std.specs.List.{flat_map};
ghost use Rattle.imp_io.specs.Blocks.{Gives};
ghost use Rattle.netlist_spec.specs.Gates.{ReadsBelow, gate_reads};
ghost use Rattle.netlist_spec.specs.Statements.{bit_char, clocking_words, control_word, edge_word};
ghost use Rattle.netlist_spec.specs.Written.{net_name};
ghost use Rattle.gate_net.specs.Gate.{gate_form, net_number};
ghost use Rattle.gate_net.specs.Machine.{latch_row};
ghost use Rattle.blif_read.specs.Ids.{IsIdOf, control_ids};
ghost use Rattle.blif_read.specs.View.{clocking_of, name_at};
ghost use Rattle.blif_write.specs.Lines.{gate_text, latch_text, line_of, lines_of, names_text, spaced};

use crate::rows::{char_of, put_rows};
use blif_read::Clocking;
use gate_net::{Gate, LatchRow, NetId};
use imp_io::{Blocks, Sink};
use imp_text::{NameId, Names};
use itoa::Buffer;
use named_netlist::{NameText, Named};

// A line of a word and a name, which a space separates.
pub(crate) fn put_line<O: Sink>(front: &[u8], name: &[u8], out: &mut Blocks<'_, O>)
    ensures { Gives O.seen out.old (line_of front.now name.now) out.new }
{
    out.put_all(&[front, name, b"\n"]);
}

// Such a line for each of some names.
pub(crate) fn put_names<O: Sink>(
    front: &[u8],
    names: &Names,
    ids: &[NameId],
    out: &mut Blocks<'_, O>,
)
    requires { All (IsIdOf names.now) ids.now }
    ensures { Gives O.seen out.old (lines_of front.now (map (name_at names.now) ids.now)) out.new }
{
    for id in ids {
        put_line(front, names.get(*id), out);
    }
}

// Such a line for each of some nets.
pub(crate) fn put_nets<O: Sink>(front: &[u8], g: &Named, nets: &[NetId], out: &mut Blocks<'_, O>)
    requires { All (λ n. net_number n < length g.now.labels) nets.now }
    ensures { Gives O.seen out.old (lines_of front.now (map (net_name g.now) (map net_number nets.now))) out.new }
{
    for n in nets {
        let mut room = NameText::new();
        put_line(front, g.net_name(*n, &mut room), out);
    }
}

// A line of a word and a number.
pub(crate) fn put_number<O: Sink>(front: &[u8], n: u32, out: &mut Blocks<'_, O>)
    ensures { Gives O.seen out.old (front.now ++ decimal n ++ 10 ∷ []) out.new }
{
    let mut digits = Buffer::new();
    put_line(front, digits.format(n).as_bytes(), out);
}

// A word behind another.
fn put_word<O: Sink>(word: &[u8], out: &mut Blocks<'_, O>)
    ensures { Gives O.seen out.old (32 ∷ word.now) out.new }
{
    out.put_all(&[b" ", word]);
}

// The name of a net behind another word.
fn put_net<O: Sink>(g: &Named, n: NetId, out: &mut Blocks<'_, O>)
    requires { n.0 < length g.now.labels }
    ensures { Gives O.seen out.old (32 ∷ net_name g.now n.0) out.new }
{
    let mut room = NameText::new();
    put_word(g.net_name(n, &mut room), out);
}

fn edge_bytes(rising: bool) -> &'static [u8]
    ensures { result.now ≡ edge_word rising }
{
    if rising { b"re" } else { b"fe" }
}

fn control_bytes(names: &Names, control: Option<NameId>) -> &[u8]
    requires { IfSome control (IsIdOf names.now) }
    ensures { result.now ≡ control_word (option_map (name_at names.now) control) }
{
    match control {
        Some(id) => names.get(id),
        None => b"NIL",
    }
}

// The edge and the control of a latch, if it has them.
fn put_clocking<O: Sink>(names: &Names, clocking: Clocking, out: &mut Blocks<'_, O>)
    requires { All (IsIdOf names.now) (control_ids clocking) }
    ensures { Gives O.seen out.old (spaced (clocking_words (clocking_of names.now clocking))) out.new }
{
    match clocking {
        Clocking::Plain => {}
        Clocking::Edge { rising, control } => {
            put_word(edge_bytes(rising), out);
            put_word(control_bytes(names, control), out);
        }
    }
}

fn put_init<O: Sink>(init: bool, out: &mut Blocks<'_, O>)
    ensures { Gives O.seen out.old (32 ∷ bit_char init ∷ 10 ∷ []) out.new }
{
    out.put(&[b' ', char_of(init), b'\n']);
}

// The line of a latch with that net.
pub(crate) fn put_latch<O: Sink>(g: &Named, q: NetId, latch: LatchRow, out: &mut Blocks<'_, O>)
    requires q { q.0 < length g.now.labels }
    requires d { latch.d.0 < length g.now.labels }
    ensures { Gives O.seen out.old (latch_text g.now (q.0, latch_row latch)) out.new }
{
    out.put(b".latch");
    put_net(g, latch.d, out);
    put_net(g, q, out);
    put_clocking(&g.names, g.clocking, out);
    put_init(latch.init, out);
}

// The nets that a gate reads.
fn put_reads<O: Sink>(g: &Named, n: NetId, gate: &Gate, out: &mut Blocks<'_, O>)
    requires net { n.0 < length g.now.labels }
    requires reads { ReadsBelow n.0 (gate_form gate.now) }
    ensures { Gives O.seen out.old (spaced (map (net_name g.now) (gate_reads (gate_form gate.now)))) out.new }
{
    match *gate {
        Gate::Const(_) => {}
        Gate::One { a, .. } => put_net(g, a, out),
        Gate::Two { a, b, .. } => {
            put_net(g, a, out);
            put_net(g, b, out);
        }
    }
}

// The line of a gate with that net.
fn put_names_line<O: Sink>(g: &Named, n: NetId, gate: &Gate, out: &mut Blocks<'_, O>)
    requires net { n.0 < length g.now.labels }
    requires reads { ReadsBelow n.0 (gate_form gate.now) }
    ensures { Gives O.seen out.old (names_text g.now (n.0, gate_form gate.now)) out.new }
{
    out.put(b".names");
    put_reads(g, n, gate, out);
    put_net(g, n, out);
    out.put(b"\n");
}

// That line and the rows of the gate.
pub(crate) fn put_gate<O: Sink>(g: &Named, n: NetId, gate: &Gate, out: &mut Blocks<'_, O>)
    requires net { n.0 < length g.now.labels }
    requires reads { ReadsBelow n.0 (gate_form gate.now) }
    ensures { Gives O.seen out.old (gate_text g.now (n.0, gate_form gate.now)) out.new }
{
    put_names_line(g, n, gate, out);
    put_rows(gate, out);
}
