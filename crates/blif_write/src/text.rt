// The text of a gate list with names.
ghost use Rattle.std.specs.Prelude.{◌≡◌};
ghost use Rattle.imp_io.specs.Blocks.{Gives};
ghost use Rattle.imp_io.specs.Sink.{Puts};
ghost use Rattle.netlist_spec.specs.Text.{text_of};
ghost use Rattle.netlist_spec.specs.Written.{IsNamed, file_of};
ghost use Rattle.netlist_spec.specs.WrittenText.{IsOneReading};
ghost use Rattle.blif_write.specs.Lines.{gates_text, head_text, latches_text, named_text, ports_text};
ghost use Rattle.blif_write.specs.Refusals.{put_answer};

use crate::WriteRefusal;
use crate::lines::{put_gate, put_latch, put_line, put_names, put_nets, put_number};
use gate_net::NetId;
use imp_io::{Blocks, Sink, SinkFault};
use named_netlist::Named;

/// Appends the text of a gate list: the line on unknown inits, the model, its ports, its latches, and its gates in
/// order. At a refusal a prefix of it was appended.
pub fn write<O: Sink>(g: &Named, out: &mut O) -> Result<(), WriteRefusal>
    ensures puts { Puts (O.seen out.old) (text_of g.now.unknown_inits (file_of g.now)) (put_answer result) (O.seen out.new) }
    ensures is_named { IsNamed g.now }
    ensures reading { IsOneReading (text_of g.now.unknown_inits (file_of g.now)) (file_of g.now) }
{
    // What holds of every `Named` is known once a field is read.
    let _ = &g.net;
    match put_blocks(g, out) {
        Ok(()) => Ok(()),
        Err(SinkFault::Failed) => Err(WriteRefusal::Fault),
        Err(SinkFault::NoMemory) => Err(WriteRefusal::NoMemory),
    }
}

fn put_blocks<O: Sink>(g: &Named, out: &mut O) -> Result<(), SinkFault>
    ensures { Puts (O.seen out.old) (named_text g.now) result (O.seen out.new) }
{
    let mut blocks = Blocks::new(out);
    put_text(g, &mut blocks);
    blocks.flush()
}

fn put_text<O: Sink>(g: &Named, out: &mut Blocks<'_, O>)
    ensures { Gives O.seen out.old (named_text g.now) out.new }
{
    put_head(g, out);
    put_ports(g, out);
    put_latches(g, out);
    put_gates(g, out);
    out.put(b".end\n");
}

fn put_head<O: Sink>(g: &Named, out: &mut Blocks<'_, O>)
    ensures { Gives O.seen out.old (head_text g.now) out.new }
{
    put_number(b"# unknown inits ", g.unknown_inits, out);
    put_line(b".model ", g.model.bytes(), out);
}

fn put_ports<O: Sink>(g: &Named, out: &mut Blocks<'_, O>)
    ensures { Gives O.seen out.old (ports_text g.now) out.new }
{
    put_names(b".inputs ", &g.names, &g.inputs, out);
    put_nets(b".outputs ", g, &g.outputs, out);
    put_names(b".clock ", &g.names, &g.clocks, out);
}

// The nets of the latches stand behind the data inputs.
fn put_latches<O: Sink>(g: &Named, out: &mut Blocks<'_, O>)
    ensures { Gives O.seen out.old (latches_text g.now) out.new }
{
    let first = g.data_inputs;
    for n in first..g.net.leaves() {
        put_latch(g, NetId(n), g.latches[(n - first) as usize], out);
    }
}

fn put_gates<O: Sink>(g: &Named, out: &mut Blocks<'_, O>)
    ensures { Gives O.seen out.old (gates_text g.now) out.new }
{
    for n in g.net.leaves()..g.net.len() {
        put_gate(g, NetId(n), &g.net.gate(NetId(n)), out);
    }
}
