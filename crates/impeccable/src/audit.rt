// The command `audit NETLIST`.
ghost use Rattle.std.specs.Prelude.{◌≡◌, ◌≤◌, [], filter_map, length, map, slice_index_or, IfOk};
ghost use Rattle.imp_io.specs.Blocks.{Gives};
ghost use Rattle.imp_io.specs.Files.{IsLater};
ghost use Rattle.imp_io.specs.Sink.{Puts};
ghost use Rattle.netlist_spec.specs.Models.{latch_outputs as latch_outputs_of, output_nets};
ghost use Rattle.netlist_spec.specs.Ordered.{cell_nets};
ghost use Rattle.gate_net.specs.Bit.{bit_of};
ghost use Rattle.blif_read.specs.declared.file.Located.{Located as ReadLocated};
ghost use Rattle.blif_read.specs.View.{model_of, name_at};
ghost use Rattle.independence_audit.specs.Known.{output_of as output_of_read};
ghost use Rattle.program_spec.specs.Commands.{audit as audit_command};
ghost use Rattle.program_spec.specs.Printed.{bit_text, bits_lines, independent_text};
ghost use Rattle.impeccable.specs.Answers.{Answers, KeepsOwn};
ghost use Rattle.impeccable.specs.Audit.{IsReady, audited_success, audited_text, line_text, shared_text, success_of as success_of_audit};
ghost use Rattle.impeccable.specs.Ended.{answer_of, part_answer};
ghost use Rattle.impeccable.specs.Steps.{Prepares};

use crate::ended::{Ended, Stop, Success};
use crate::lines::put_number;
use crate::netlist::load_netlist;
use blif_read::{Located, Model, NameId, Names, Statement};
use gate_net::Bit;
use imp_io::{Blocks, Files, Sink, SinkFault};
use independence_audit::audit;
use independence_audit::types::{Audit, CellId};
use std::alloc::{AllocError, Global};

// A netlist, the nets of its latches by number, and what an audit says of it.
#[derive(Drop)]
struct Audited {
    model: Model,
    latches: Vec<NameId>,
    audit: Audit,
}

/// Audits the netlist of that name, and writes the one bit of each cell, or the first finding.
pub(crate) fn write_audit<'a, F: Files, O: Sink>(
    alloc: Global,
    netlist: &'a str,
    files: &mut F,
    out: &mut O,
) -> Ended<'a>
    ensures answers { Answers (audit_command netlist.now) (F.seen files.old) (F.seen files.new) (O.seen out.old) (O.seen out.new) (answer_of result) }
    ensures own { KeepsOwn (F.seen files.old) (F.seen files.new) (answer_of result) }
    ensures later { IsLater (F.seen files.old) (F.seen files.new) }
{
    let audited = audit_netlist(alloc, netlist, files)?;
    write_text(&audited, out)?;
    Ok(success_of(&audited.audit))
}

// Loads and reads the netlist, and audits it.
fn audit_netlist<'a, F: Files>(
    alloc: Global,
    netlist: &'a str,
    files: &mut F,
) -> Result<Audited, Stop<'a>>
    ensures prepares { Prepares (audit_command netlist.now) audited_success audited_text (F.seen files.old) result (F.seen files.new) }
    ensures ready { IfOk result IsReady }
    ensures own { KeepsOwn (F.seen files.old) (F.seen files.new) (part_answer result) }
    ensures later { IsLater (F.seen files.old) (F.seen files.new) }
{
    let mut file = load_netlist(alloc, files, netlist)?;
    let audit = audit(alloc, &file)?;
    let model = file.models.swap_remove(0);
    let latches = latch_outputs(alloc, &model.statements)?;
    Ok(Audited {
        model,
        latches,
        audit,
    })
}

fn output_of(s: &Statement) -> Option<NameId>
    ensures { result ≡ output_of_read s.now }
{
    match s {
        Statement::Latch { q, .. } => Some(*q),
        _ => None,
    }
}

fn latch_outputs(alloc: Global, statements: &[Located]) -> Result<Vec<NameId>, AllocError>
    ensures { IfOk result (λ ids. ids.items ≡ filter_map (λ (s : ReadLocated). output_of_read s.what) statements.now) }
{
    statements
        .iter()
        .filter_map(|s| output_of(&s.what))
        .collect(alloc)
}

fn success_of(audit: &Audit) -> Success
    ensures { result ≡ success_of_audit audit.now }
{
    match audit {
        Audit::Independent(_) => Success::Done,
        _ => Success::Found,
    }
}

fn write_text<O: Sink>(audited: &Audited, out: &mut O) -> Result<(), SinkFault>
    requires { IsReady audited.now }
    ensures { Puts (O.seen out.old) (audited_text audited.now) result (O.seen out.new) }
{
    let mut blocks = Blocks::new(out);
    audited.put_text(&mut blocks);
    blocks.flush()
}

// The name of that number, and no bytes where there is none.
fn name_of(names: &Names, id: NameId) -> &[u8]
    ensures { result.now ≡ name_at names.now id }
{
    if id.0 < names.len() {
        names.get(id)
    } else {
        b""
    }
}

impl Audited {
    // The net of the cell at a place in file order, and no bytes past the last.
    fn cell_net(&self, place: usize) -> &[u8]
        requires { IsReady self.now }
        ensures { result.now ≡ slice_index_or (cell_nets (model_of self.now.model)) place [] }
    {
        let Some(s) = self.model.statements.get(place) else {
            return b"";
        };
        match &s.what {
            Statement::Names { out, .. } => name_of(&self.model.names, *out),
            Statement::Latch { q, .. } => name_of(&self.model.names, *q),
            Statement::Subckt { .. } => b"",
        }
    }

    // The output net of a latch.
    fn latch_net(&self, i: u32) -> &[u8]
        requires { IsReady self.now }
        ensures { result.now ≡ slice_index_or (latch_outputs_of (model_of self.now.model)) i [] }
    {
        match self.latches.get(i as usize) {
            Some(id) => name_of(&self.model.names, *id),
            None => b"",
        }
    }

    // The net of an output.
    fn output_net(&self, i: u32) -> &[u8]
        ensures { result.now ≡ slice_index_or (output_nets (model_of self.now.model)) i [] }
    {
        match self.model.outputs.get(i as usize) {
            Some(port) => name_of(&self.model.names, port.name),
            None => b"",
        }
    }

    // A bit by its kind and its net.
    fn put_bit<O: Sink>(&self, bit: Bit, out: &mut Blocks<'_, O>)
        requires { IsReady self.now }
        ensures { Gives O.seen out.old (bit_text (model_of self.now.model) (bit_of bit)) out.new }
    {
        match bit {
            Bit::Latch(i) => out.put_all(&[b"latch ", self.latch_net(i)]),
            Bit::Output(i) => out.put_all(&[b"output ", self.output_net(i)]),
        }
    }

    // The line of a cell and its one bit.
    fn put_line<O: Sink>(&self, place: usize, bit: Bit, out: &mut Blocks<'_, O>)
        requires { IsReady self.now }
        ensures { Gives O.seen out.old (line_text (model_of self.now.model) place (bit_of bit)) out.new }
    {
        out.put_all(&[self.cell_net(place), b" "]);
        self.put_bit(bit, out);
        out.put(b"\n");
    }

    // The lines of all cells.
    fn put_lines<O: Sink>(&self, bits: &[Bit], out: &mut Blocks<'_, O>)
        requires ready { IsReady self.now }
        requires few { length bits.now ≤ length (cell_nets (model_of self.now.model)) }
        ensures { Gives O.seen out.old (bits_lines (model_of self.now.model) (map bit_of bits.now)) out.new }
    {
        for (place, bit) in bits.iter().enumerate() {
            self.put_line(place, *bit, out);
        }
    }

    // Where each cell has its one bit, how many these are, and their lines.
    fn put_bits<O: Sink>(&self, bits: &[Bit], out: &mut Blocks<'_, O>)
        requires ready { IsReady self.now }
        requires few { length bits.now ≤ length (cell_nets (model_of self.now.model)) }
        ensures { Gives O.seen out.old (independent_text (model_of self.now.model) (map bit_of bits.now)) out.new }
    {
        put_number(b"independent", bits.len() as u64, out);
        self.put_lines(bits, out);
    }

    // The line of a cell that two bits share.
    fn put_shared<O: Sink>(&self, cell: CellId, one: Bit, other: Bit, out: &mut Blocks<'_, O>)
        requires { IsReady self.now }
        ensures { Gives O.seen out.old (shared_text (model_of self.now.model) cell (bit_of one) (bit_of other)) out.new }
    {
        out.put_all(&[b"shared ", self.cell_net(cell.0 as usize), b" "]);
        self.put_bit(one, out);
        out.put(b" ");
        self.put_bit(other, out);
        out.put(b"\n");
    }

    // The whole text.
    fn put_text<O: Sink>(&self, out: &mut Blocks<'_, O>)
        requires { IsReady self.now }
        ensures { Gives O.seen out.old (audited_text self.now) out.new }
    {
        match &self.audit {
            Audit::Independent(bits) => self.put_bits(bits, out),
            Audit::Wide { cell } => {
                out.put_all(&[b"wide ", self.cell_net(cell.0 as usize), b"\n"]);
            }
            Audit::Unused { cell } => {
                out.put_all(&[b"unused ", self.cell_net(cell.0 as usize), b"\n"]);
            }
            Audit::Shared { cell, one, other } => self.put_shared(*cell, *one, *other, out),
            Audit::OutputRead { net, cell } => {
                let net = name_of(&self.model.names, *net);
                let cell = self.cell_net(cell.0 as usize);
                out.put_all(&[b"output-read ", net, b" ", cell, b"\n"]);
            }
        }
    }
}
