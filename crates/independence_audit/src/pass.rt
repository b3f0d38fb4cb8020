// The pass over the `.names`, from the last to the first.
ghost use Rattle.std.specs.Prelude.{◌≡◌, ◌<◌, [], ◌∷◌, ◌++◌, filter_map, length, map, All};
ghost use Rattle.std.specs.List.{cons_option};
ghost use Rattle.netlist_spec.specs.Models.{Gate, as_gate, output_nets};
ghost use Rattle.netlist_spec.specs.Netlist.{Cover, Model as SpecModel, Name as Bytes};
ghost use Rattle.imp_text.specs.declared.names.NameId.{NameId as Id};
ghost use Rattle.blif_read.specs.Ids.{ids_in};
ghost use Rattle.blif_read.specs.declared.file.Located.{Located as ReadLocated};
ghost use Rattle.blif_read.specs.View.{located_of, name_at, statement_of};
ghost use Rattle.line_order.specs.Marks.{Marks};
ghost use Rattle.audit_laws.specs.Along.{bits_along, bits_partly};
ghost use Rattle.independence_audit.specs.Kept.{Keeps, first_bits};
ghost use Rattle.std.specs.Prelude.{List};

use crate::kept::Kept;
use blif_read::{Located, NameId, Statement};
use line_order::NetMarks;

// A `.names` reads a net: unless that is an output, it has the bits of the `.names`.
fn pass_read(table: &mut [Kept], outputs: &NetMarks, id: NameId, bits: Kept)
    requires net { id.0 < length table.old }
    requires output { id.0 < length outputs.now }
    ensures { (m : SpecModel) (later : List Gate) (g : Gate) (done : List Bytes) → Marks m.names outputs.now (output_nets m) → first_bits bits ≡ bits_along m later g.out
        → Keeps m.names table.old (bits_partly m later g done) → Keeps m.names table.new (bits_partly m later g (done ++ name_at m.names id ∷ [])) }
{
    let place = id.0 as usize;
    if !outputs.has(id) {
        table[place] = table[place].merged(bits);
    }
}

// A `.names` reads some nets.
fn pass_reads(table: &mut [Kept], outputs: &NetMarks, ins: &[NameId], bits: Kept)
    requires nets { All (λ (id : Id). id.0 < length table.old) ins.now }
    requires outputs { length outputs.now ≡ length table.old }
    ensures { (m : SpecModel) (later : List Gate) (g : Gate) → Marks m.names outputs.now (output_nets m) → first_bits bits ≡ bits_along m later g.out
        → g.ins ≡ map (name_at m.names) ins.now
        → Keeps m.names table.old (bits_along m later) → Keeps m.names table.new (bits_along m (g ∷ later)) }
{
    for id in ins {
        pass_read(table, outputs, *id, bits);
    }
}

// One more statement, where the later ones are done.
fn pass_statement(table: &mut [Kept], outputs: &NetMarks, s: &Statement)
    requires nets { All (λ (id : Id). id.0 < length table.old) (ids_in s.now) }
    requires outputs { length outputs.now ≡ length table.old }
    ensures { (m : SpecModel) (later : List Gate) → Marks m.names outputs.now (output_nets m)
        → Keeps m.names table.old (bits_along m later) → Keeps m.names table.new (bits_along m (cons_option (as_gate (statement_of m.names s.now)) later)) }
{
    if let Statement::Names { ins, out, .. } = s {
        let bits = table[out.0 as usize];
        pass_reads(table, outputs, ins, bits);
    }
}

// All statements, the last one first.
pub(crate) fn pass_back(table: &mut [Kept], outputs: &NetMarks, statements: &[Located])
    requires nets { All (λ (s : ReadLocated). All (λ (id : Id). id.0 < length table.old) (ids_in s.what)) statements.now }
    requires outputs { length outputs.now ≡ length table.old }
    ensures { (m : SpecModel) → Marks m.names outputs.now (output_nets m)
        → Keeps m.names table.old (bits_along m [])
        → Keeps m.names table.new (bits_along m (filter_map (λ s. as_gate s.what) (map (located_of m.names) statements.now))) }
{
    for i in (0..statements.len()).rev() {
        pass_statement(table, outputs, &statements[i].what);
    }
}
