// The file that the text of a gate list says.
ghost use Rattle.std.specs.Prelude.{◌≡◌, ◌+◌, ◌*◌, ◌^◌, ◌<◌, ◌≤◌, List, [], ◌∷◌, ◌++◌, length, All, IfOk, OnOk};
ghost use Rattle.std.specs.List.{flat_map};
ghost use Rattle.netlist_spec.specs.Gates.{ReadsBelow};
ghost use Rattle.netlist_spec.specs.FileRules.{IsFile};
ghost use Rattle.netlist_spec.specs.Netlist.{Name as Bytes};
ghost use Rattle.netlist_spec.specs.Reads.{control_nets, statement_nets};
ghost use Rattle.netlist_spec.specs.Written.{IsNamed, file_of as named_file, gate_statements, latch_statements, line_count as count_of, statements_from};
ghost use Rattle.netlist_spec.specs.Text.{text_of};
ghost use Rattle.netlist_spec.specs.WrittenText.{IsOneReading};
ghost use Rattle.gate_net.specs.Gate.{gate_form};
ghost use Rattle.gate_net.specs.Machine.{latch_row};
ghost use Rattle.blif_read.specs.Ids.{HasIds, control_ids, IsIdOf};
ghost use Rattle.blif_read.specs.View.{clocking_of, file_of, model_of, statement_of};
ghost use Rattle.blif_read.specs.Spelled.{Spells, SpellsEach, with_names};
ghost use Rattle.blif_write.specs.Numbers.{latch_of, model_of_parts, names_of, statement_at};

use crate::cover::cover;
use crate::numbers::{given_numbers, net_number, net_numbers, ports_from, read_numbers};
use blif_read::{Clocking, File, Located, Model, Port, Statement};
use gate_net::{Gate, LatchRow, NetId};
use imp_text::{Name, Names};
use named_netlist::Named;
use std::alloc::{AllocError, Global};

/// The file that the text of the gate list says.
pub fn as_file(alloc: Global, g: &Named) -> Result<File, AllocError>
    ensures file { IfOk result (λ file. file_of file ≡ named_file g.now) }
    ensures is_file { IfOk result (λ file. IsFile (file_of file)) }
    ensures ids { IfOk result (λ file. All HasIds file.models.items) }
    ensures is_named { IsNamed g.now }
    ensures reading { IsOneReading (text_of g.now.unknown_inits (named_file g.now)) (named_file g.now) }
{
    let mut names = Names::new(alloc);
    let inputs = given_numbers(alloc, &g.names, &g.inputs, &mut names)?;
    let outputs = net_numbers(alloc, g, &g.outputs, &mut names)?;
    let clocks = given_numbers(alloc, &g.names, &g.clocks, &mut names)?;
    let outputs_at = 3 + inputs.len() as u32;
    let clocks_at = outputs_at + outputs.len() as u32;
    let statements_at = clocks_at + clocks.len() as u32;
    let statements = statements(alloc, g, statements_at, &mut names)?;
    let name = Name::new(alloc, g.model.bytes())?;
    let inputs = ports_from(alloc, &inputs, 3)?;
    let outputs = ports_from(alloc, &outputs, outputs_at)?;
    let clocks = ports_from(alloc, &clocks, clocks_at)?;
    file_of_parts(alloc, name, names, inputs, outputs, clocks, statements)
}

fn file_of_parts(
    alloc: Global,
    name: Name,
    names: Names,
    inputs: Vec<Port>,
    outputs: Vec<Port>,
    clocks: Vec<Port>,
    statements: Vec<Located>,
) -> Result<File, AllocError>
    requires { HasIds (model_of_parts name names inputs outputs clocks statements) }
    ensures file { IfOk result
        (λ file. file_of file ≡ record { models = model_of (model_of_parts name names inputs outputs clocks statements) ∷ [] }) }
    ensures ids { IfOk result (λ file. All HasIds file.models.items) }
{
    let main = Model {
        name,
        line: 2,
        names,
        inputs,
        outputs,
        clocks,
        statements,
    };
    Ok(File {
        models: vec![in alloc; main]?,
    })
}

// The statements of the latches and the gates, from that line on.
fn statements(
    alloc: Global,
    g: &Named,
    first: u32,
    names: &mut Names,
) -> Result<Vec<Located>, AllocError>
    requires room { length names.old + 3 * length g.now.labels ≤ 2 ^ 31 }
    requires lines { first + 5 * length g.now.labels < 2 ^ 32 }
    ensures names { OnOk result
        (names.new ≡ with_names names.old (flat_map statement_nets (latch_statements g.now ++ gate_statements g.now))) }
    ensures spells { IfOk result
        (λ s. SpellsEach names.new s.items (statements_from first (latch_statements g.now ++ gate_statements g.now))) }
{
    let mut statements = Vec::new(alloc);
    let mut line = first;
    for n in g.data_inputs..g.net.len() {
        let what = statement(alloc, g, NetId(n), names)?;
        let lines = line_count(&what);
        statements.push(Located { line, what })?;
        line += lines;
    }
    Ok(statements)
}

// How many lines a statement has.
fn line_count(s: &Statement) -> u32
    requires { count_of (statement_of [] s.now) < 2 ^ 32 }
    ensures { result ≡ count_of (statement_of [] s.now) }
{
    match s {
        Statement::Names { cover, .. } => 1 + cover.rows.len() as u32,
        _ => 1,
    }
}

// The statement of a latch or a gate.
fn statement(alloc: Global, g: &Named, n: NetId, names: &mut Names) -> Result<Statement, AllocError>
    requires cell { g.now.data_inputs ≤ n.0 }
    requires net { n.0 < length g.now.labels }
    requires room { length names.old + 3 ≤ 2 ^ 31 }
    ensures names { OnOk result (names.new ≡ with_names names.old (statement_nets (statement_at g.now n.0))) }
    ensures spells { IfOk result (λ s. Spells names.new s (statement_at g.now n.0)) }
{
    if n.0 < g.net.leaves() {
        latch(g, n, g.latches[(n.0 - g.data_inputs) as usize], names)
    } else {
        gate(alloc, g, n, &g.net.gate(n), names)
    }
}

fn latch(g: &Named, q: NetId, row: LatchRow, names: &mut Names) -> Result<Statement, AllocError>
    requires q { q.0 < length g.now.labels }
    requires d { row.d.0 < length g.now.labels }
    requires room { length names.old + 3 ≤ 2 ^ 31 }
    ensures names { OnOk result (names.new ≡ with_names names.old (statement_nets (latch_of g.now q.0 (latch_row row)))) }
    ensures spells { IfOk result (λ s. Spells names.new s (latch_of g.now q.0 (latch_row row))) }
{
    let d = net_number(g, row.d, names)?;
    let q = net_number(g, q, names)?;
    let clocking = clocking(g, names)?;
    Ok(Statement::Latch {
        d,
        q,
        clocking,
        init: Some(u8::from(row.init)),
    })
}

// The pair of each latch, with the number of its control.
fn clocking(g: &Named, names: &mut Names) -> Result<Clocking, AllocError>
    requires room { length names.old < 2 ^ 31 }
    ensures names { OnOk result (names.new ≡ with_names names.old (control_nets g.now.clocking)) }
    ensures same { IfOk result (λ c. (more : List Bytes) → clocking_of (names.new ++ more) c ≡ g.now.clocking) }
    ensures within { IfOk result (λ c. All (IsIdOf names.new) (control_ids c)) }
{
    match g.clocking {
        Clocking::Plain => Ok(Clocking::Plain),
        Clocking::Edge {
            rising,
            control: None,
        } => Ok(Clocking::Edge {
            rising,
            control: None,
        }),
        Clocking::Edge {
            rising,
            control: Some(id),
        } => {
            let control = names.intern(g.names.get(id))?;
            Ok(Clocking::Edge {
                rising,
                control: Some(control),
            })
        }
    }
}

fn gate(
    alloc: Global,
    g: &Named,
    n: NetId,
    gate: &Gate,
    names: &mut Names,
) -> Result<Statement, AllocError>
    requires net { n.0 < length g.now.labels }
    requires reads { ReadsBelow n.0 (gate_form gate.now) }
    requires room { length names.old + 3 ≤ 2 ^ 31 }
    ensures names { OnOk result (names.new ≡ with_names names.old (statement_nets (names_of g.now n.0 (gate_form gate.now)))) }
    ensures spells { IfOk result (λ s. Spells names.new s (names_of g.now n.0 (gate_form gate.now))) }
{
    let ins = read_numbers(alloc, g, n, gate, names)?;
    let out = net_number(g, n, names)?;
    let cover = cover(alloc, gate)?;
    Ok(Statement::Names { ins, out, cover })
}
