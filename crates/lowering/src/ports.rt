// S-boxes and linear layers as gates, and the nets of their ports.
ghost use Rattle.std.specs.Prelude.{◌≡◌, ◌+◌, ◌^◌, ◌<◌, ◌≤◌, false, length, map, IfNone, IfOk, IfSome, IsTrue, OnOk, All};
ghost use Rattle.std.specs.List.{AllByRecursion};
ghost use Rattle.netlist_spec.specs.Covers.{linear_value, table_value};
ghost use Rattle.netlist_spec.specs.Netlist.{are_distinct, stands_in};
ghost use Rattle.netlist_spec.specs.Placed.{numbered_ports};
ghost use Rattle.netlist_spec.specs.Size.{linear_cost, table_cost};
ghost use Rattle.gate_net.specs.Gate.{net_number};
ghost use Rattle.gate_net.specs.GateNet.{net_count};
ghost use Rattle.blif_read.specs.declared.file.Bind.{Bind as ReadBind};
ghost use Rattle.lowering.specs.Nets.{place_of};
ghost use Rattle.lowering.specs.Numbers.{IsWithin};
ghost use Rattle.lowering.specs.Ports.{NotesPorts, input_nets as input_nets_of, input_put, output_put, outputs_put};

use crate::covers::net_of;
use blif_read::Bind;
use gate_net::{GateNet, NetId};
use linear_layer::Linear;
use sbox_table::Table;
use source_nets::number_of;
use std::alloc::{AllocError, Global};

// The place of a name among so many ports of a letter.
fn port_place(letter: u8, count: usize, name: &[u8]) -> Option<usize>
    requires { count ≤ 128 }
    ensures within { IfSome result (λ k. k < count) }
    ensures place { IfSome result (λ k. place_of (numbered_ports letter count) name.now ≡ k) }
    ensures port { IfSome result (λ k. IsTrue (stands_in name.now (numbered_ports letter count))) }
    ensures none { IfNone result (stands_in name.now (numbered_ports letter count) ≡ false) }
{
    if name.is_empty() || name[0] != letter {
        return None;
    }
    let number = number_of(&name[1..])? as usize;
    if number < count { Some(number) } else { None }
}

// Puts the net of an input at the place of its port.
fn put_input(table: &[u32], bind: &Bind, nets: &mut [NetId])
    requires few { length nets.old ≤ 128 }
    requires within { IsWithin table.now bind.now.actual }
    ensures { map net_number nets.new ≡ input_put table.now (map net_number nets.old) bind.now }
{
    if let Some(k) = port_place(b'i', nets.len(), bind.formal.bytes()) {
        nets[k] = net_of(table, bind.actual);
    }
}

// The nets of the inputs, in the order of the ports.
fn input_nets(
    alloc: Global,
    table: &[u32],
    binds: &[Bind],
    count: usize,
) -> Result<Vec<NetId>, AllocError>
    requires few { count ≤ 128 }
    requires within { All (λ (b : ReadBind). IsWithin table.now b.actual) binds.now }
    requires once { IsTrue (are_distinct (map (λ (b : ReadBind). b.formal) binds.now)) }
    ensures { IfOk result (λ nets. map net_number nets.items ≡ input_nets_of table.now binds.now count) }
{
    let mut nets = vec![in alloc; NetId(0); count]?;
    for bind in binds {
        put_input(table, bind, &mut nets);
    }
    Ok(nets)
}

// Notes the net of an output where its port is bound.
fn put_output(outs: &[NetId], bind: &Bind, table: &mut [u32])
    requires few { length outs.now ≤ 128 }
    requires within { IsWithin table.old bind.now.actual }
    ensures { table.new ≡ output_put (numbered_ports 111 (length outs.now)) (map net_number outs.now) table.old bind.now }
{
    if let Some(k) = port_place(b'o', outs.len(), bind.formal.bytes()) {
        table[bind.actual.0 as usize] = outs[k].0;
    }
}

// Notes the nets of the outputs that are bound.
fn put_outputs(outs: &[NetId], binds: &[Bind], table: &mut [u32])
    requires few { length outs.now ≤ 128 }
    requires within { All (λ (b : ReadBind). IsWithin table.old b.actual) binds.now }
    ensures { table.new ≡ outputs_put (numbered_ports 111 (length outs.now)) (map net_number outs.now) table.old binds.now }
{
    for bind in binds {
        put_output(outs, bind, table);
    }
}

/// Appends gates for an S-box whose ports are bound so, and notes the nets of its outputs.
pub(crate) fn lower_table(
    alloc: Global,
    entry: &Table,
    binds: &[Bind],
    table: &mut [u32],
    net: &mut GateNet,
) -> Result<(), AllocError>
    requires within { All (λ (b : ReadBind). IsWithin table.old b.actual) binds.now }
    requires once { IsTrue (are_distinct (map (λ (b : ReadBind). b.formal) binds.now)) }
    requires nets { AllByRecursion (λ n. n < net_count net.old) (input_nets_of table.old binds.now entry.now.ins) }
    requires room { net_count net.old + table_cost entry.now ≤ 2 ^ 23 }
    ensures few { entry.now.outs ≤ 128 }
    ensures notes { OnOk result
        (NotesPorts entry.now.ins entry.now.outs (table_value entry.now) (table_cost entry.now) binds.now net.old table.old net.new table.new) }
{
    prove!(entry.ins <= 8 && entry.outs <= 8);
    let ins = input_nets(alloc, table, binds, usize::from(entry.ins))?;
    let outs = sbox_table::lower(alloc, entry, &ins, net)?;
    put_outputs(&outs, binds, table);
    Ok(())
}

/// Appends gates for a linear layer whose ports are bound so, and notes the nets of its outputs.
pub(crate) fn lower_linear(
    alloc: Global,
    entry: &Linear,
    binds: &[Bind],
    table: &mut [u32],
    net: &mut GateNet,
) -> Result<(), AllocError>
    requires within { All (λ (b : ReadBind). IsWithin table.old b.actual) binds.now }
    requires once { IsTrue (are_distinct (map (λ (b : ReadBind). b.formal) binds.now)) }
    requires nets { AllByRecursion (λ n. n < net_count net.old) (input_nets_of table.old binds.now entry.now.width) }
    requires room { net_count net.old + linear_cost entry.now ≤ 2 ^ 23 }
    ensures few { length entry.now.rows ≤ 128 }
    ensures notes { OnOk result
        (NotesPorts entry.now.width (length entry.now.rows) (linear_value entry.now) (linear_cost entry.now) binds.now net.old table.old net.new table.new) }
{
    prove!(entry.width <= 128 && entry.rows.len() <= 128);
    let ins = input_nets(alloc, table, binds, usize::from(entry.width))?;
    let outs = linear_layer::lower(alloc, entry, &ins, net)?;
    put_outputs(&outs, binds, table);
    Ok(())
}
