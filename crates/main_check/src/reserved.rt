// Names that a written netlist can't take over.
ghost use Rattle.std.specs.Prelude.{◌≡◌, ◌<◌, ◌++◌, find, map, option_map, All, IfSome};
ghost use Rattle.netlist_spec.specs.Covers.{Library};
ghost use Rattle.netlist_spec.specs.Lines.{ends_with_backslash as ends_with_backslash_of};
ghost use Rattle.netlist_spec.specs.Models.{latch_outputs};
ghost use Rattle.netlist_spec.specs.Netlist.{File, is_reserved as is_reserved_of};
ghost use Rattle.netlist_spec.specs.Placed.{port_names};
ghost use Rattle.netlist_spec.specs.Sound.{written_names};
ghost use Rattle.netlist_spec.specs.SoundFaults.{reserved_in};
ghost use Rattle.imp_text.specs.declared.names.NameId.{NameId as Id};
ghost use Rattle.blif_read.specs.declared.file.Located.{Located as ReadLocated};
ghost use Rattle.blif_read.specs.declared.file.Port.{Port as ReadPort};
ghost use Rattle.blif_read.specs.Ids.{HasIds, IsIdOf, ids_in};
ghost use Rattle.blif_read.specs.View.{model_of, name_at, statement_of};
ghost use Rattle.line_order.specs.Marks.{latch_output_of};
ghost use Rattle.main_check.specs.Reserved.{IsReservedIn, outputs_of, reserved_told};

use blif_read::{Located, Model, NameId, Names, Port, Statement};

/// A name that can't be written: that of the model, or that of a net.
#[derive(Clone, Copy, Debug)]
pub enum Reserved {
    Model,
    Net(NameId),
}

/// The model's name where it ends with a backslash, which would join its line with the next. Else the first reserved name of
/// inputs, of clocks, of outputs and of outputs of latches, in this order: one that begins with `guard:` or ends with a
/// backslash.
pub fn reserved_name(m: &Model) -> Option<Reserved>
    requires { HasIds m.now }
    ensures exact { (file : File) (library : Library) → option_map (reserved_told (model_of m.now)) result ≡ reserved_in file library (model_of m.now) }
    ensures within { IfSome result (IsReservedIn m.now.names) }
{
    if ends_with_backslash(m.name.bytes()) {
        return Some(Reserved::Model);
    }
    match reserved_net(m) {
        Some(id) => Some(Reserved::Net(id)),
        None => None,
    }
}

fn reserved_net(m: &Model) -> Option<NameId>
    requires { HasIds m.now }
    ensures name { option_map (name_at m.now.names) result ≡ find is_reserved_of (written_names (model_of m.now)) }
    ensures within { IfSome result (IsIdOf m.now.names) }
{
    if let Some(id) = reserved_port(&m.names, &m.inputs) {
        return Some(id);
    }
    if let Some(id) = reserved_port(&m.names, &m.clocks) {
        return Some(id);
    }
    if let Some(id) = reserved_port(&m.names, &m.outputs) {
        return Some(id);
    }
    reserved_latch(&m.names, &m.statements)
}

fn reserved_port(names: &Names, ports: &[Port]) -> Option<NameId>
    requires { All (λ (port : ReadPort). IsIdOf names.now port.name) ports.now }
    ensures name { option_map (name_at names.now) result ≡ find is_reserved_of (map (λ (port : ReadPort). name_at names.now port.name) ports.now) }
    ensures within { IfSome result (IsIdOf names.now) }
{
    for port in ports {
        if is_reserved(names.get(port.name)) {
            return Some(port.name);
        }
    }
    None
}

fn reserved_latch(names: &Names, statements: &[Located]) -> Option<NameId>
    requires { All (λ (s : ReadLocated). All (IsIdOf names.now) (ids_in s.what)) statements.now }
    ensures name { option_map (name_at names.now) result ≡ find is_reserved_of (outputs_of names.now statements.now) }
    ensures within { IfSome result (IsIdOf names.now) }
{
    for s in statements {
        if let Some(id) = reserved_output(names, &s.what) {
            return Some(id);
        }
    }
    None
}

// The output of a latch, where it is reserved.
fn reserved_output(names: &Names, s: &Statement) -> Option<NameId>
    requires { All (IsIdOf names.now) (ids_in s.now) }
    ensures name { option_map (name_at names.now) result ≡ find is_reserved_of (latch_output_of (statement_of names.now s.now)) }
    ensures within { IfSome result (IsIdOf names.now) }
{
    if let Statement::Latch { q, .. } = s {
        if is_reserved(names.get(*q)) {
            return Some(*q);
        }
    }
    None
}

fn ends_with_backslash(bytes: &[u8]) -> bool
    ensures { result ≡ ends_with_backslash_of bytes.now }
{
    match bytes.last() {
        Some(last) => *last == b'\\',
        None => false,
    }
}

fn is_reserved(name: &[u8]) -> bool
    ensures { result ≡ is_reserved_of name.now }
{
    name.starts_with(b"guard:") || ends_with_backslash(name)
}
