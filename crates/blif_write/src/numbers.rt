// The names of a file, numbered as they come.
ghost use Rattle.std.specs.Prelude.{◌≡◌, ◌+◌, ◌^◌, ◌<◌, ◌≤◌, length, map, slice_get, Some, All, IfOk, OnOk};
ghost use Rattle.std.specs.List.{AllByRecursion};
ghost use Rattle.netlist_spec.specs.Netlist.{IsName};
ghost use Rattle.netlist_spec.specs.Gates.{ReadsBelow, gate_reads};
ghost use Rattle.netlist_spec.specs.Written.{net_name};
ghost use Rattle.gate_net.specs.Gate.{gate_form, net_number};
ghost use Rattle.blif_read.specs.Ids.{IsIdOf};
ghost use Rattle.imp_text.specs.Names.{with_name};
ghost use Rattle.blif_read.specs.View.{name_at};
ghost use Rattle.blif_read.specs.Spelled.{AreNumbers, with_names};
ghost use Rattle.blif_write.specs.Numbers.{ports_numbered};

use blif_read::Port;
use gate_net::{Gate, NetId};
use imp_text::{NameId, Names};
use named_netlist::{NameText, Named};
use std::alloc::{AllocError, Global};

// The number of the name of a net.
pub(crate) fn net_number(g: &Named, n: NetId, names: &mut Names) -> Result<NameId, AllocError>
    requires net { n.0 < length g.now.labels }
    requires room { length names.old < 2 ^ 31 }
    ensures names { OnOk result (names.new ≡ with_name names.old (net_name g.now n.0)) }
    ensures place { IfOk result (λ id. slice_get names.new id.0 ≡ Some (net_name g.now n.0)) }
{
    let mut room = NameText::new();
    names.intern(g.net_name(n, &mut room))
}

// The numbers of the names of some nets.
pub(crate) fn net_numbers(
    alloc: Global,
    g: &Named,
    nets: &[NetId],
    names: &mut Names,
) -> Result<Vec<NameId>, AllocError>
    requires nets { All (λ n. net_number n < length g.now.labels) nets.now }
    requires room { length names.old + length nets.now ≤ 2 ^ 31 }
    ensures names { OnOk result (names.new ≡ with_names names.old (map (net_name g.now) (map net_number nets.now))) }
    ensures numbers { IfOk result (λ ids. AreNumbers names.new ids.items (map (net_name g.now) (map net_number nets.now))) }
{
    let mut numbers = Vec::new(alloc);
    for n in nets {
        let number = net_number(g, *n, names)?;
        numbers.push(number)?;
    }
    Ok(numbers)
}

// The numbers of given names.
pub(crate) fn given_numbers(
    alloc: Global,
    given: &Names,
    ids: &[NameId],
    names: &mut Names,
) -> Result<Vec<NameId>, AllocError>
    requires given { All (IsIdOf given.now) ids.now }
    requires are_names { AllByRecursion IsName (map (name_at given.now) ids.now) }
    requires room { length names.old + length ids.now ≤ 2 ^ 31 }
    ensures names { OnOk result (names.new ≡ with_names names.old (map (name_at given.now) ids.now)) }
    ensures numbers { IfOk result (λ numbers. AreNumbers names.new numbers.items (map (name_at given.now) ids.now)) }
{
    let mut numbers = Vec::new(alloc);
    for id in ids {
        let number = names.intern(given.get(*id))?;
        numbers.push(number)?;
    }
    Ok(numbers)
}

// The numbers of the names of the nets that a gate reads.
pub(crate) fn read_numbers(
    alloc: Global,
    g: &Named,
    n: NetId,
    gate: &Gate,
    names: &mut Names,
) -> Result<Vec<NameId>, AllocError>
    requires net { n.0 < length g.now.labels }
    requires reads { ReadsBelow n.0 (gate_form gate.now) }
    requires room { length names.old + 2 ≤ 2 ^ 31 }
    ensures names { OnOk result (names.new ≡ with_names names.old (map (net_name g.now) (gate_reads (gate_form gate.now)))) }
    ensures numbers { IfOk result (λ ids. AreNumbers names.new ids.items (map (net_name g.now) (gate_reads (gate_form gate.now)))) }
{
    match *gate {
        Gate::Const(_) => Ok(Vec::new(alloc)),
        Gate::One { a, .. } => net_numbers(alloc, g, &[a], names),
        Gate::Two { a, b, .. } => net_numbers(alloc, g, &[a, b], names),
    }
}

// One port for each number, on lines of their own from that line on.
pub(crate) fn ports_from(
    alloc: Global,
    numbers: &[NameId],
    first: u32,
) -> Result<Vec<Port>, AllocError>
    requires { first + length numbers.now < 2 ^ 32 }
    ensures { IfOk result (λ ports. ports.items ≡ ports_numbered first numbers.now) }
{
    let mut ports = Vec::new(alloc);
    for (i, name) in numbers.iter().enumerate() {
        let line = first + i as u32;
        ports.push(Port { name: *name, line })?;
    }
    Ok(ports)
}
