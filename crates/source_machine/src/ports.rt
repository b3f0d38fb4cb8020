// What the latches of a machine store, and the nets of ports.
ghost use Rattle.std.specs.Prelude.{◌≡◌, length, map, filter_map, slice_index, All, IfOk};
ghost use Rattle.netlist_spec.specs.Models.{init_bit as init_bit_of};
ghost use Rattle.gate_net.specs.Gate.{net_number};
ghost use Rattle.gate_net.specs.Machine.{latch_row};
ghost use Rattle.blif_read.specs.declared.file.Port.{Port as ReadPort};
ghost use Rattle.blif_read.specs.Ids.{HasIds};
ghost use Rattle.lowering.specs.Numbers.{IsWithin};
ghost use Rattle.source_machine.specs.Rows.{row_for};

use blif_read::{Model, NameId, Port, Statement};
use gate_net::{LatchRow, NetId};
use std::alloc::{AllocError, Global};

fn net_of(table: &[u32], id: NameId) -> NetId
    requires { IsWithin table.now id }
    ensures { net_number result ≡ slice_index table.now id.0 }
{
    NetId(table[id.0 as usize])
}

fn init_bit(init: Option<u8>) -> bool
    ensures { result ≡ init_bit_of init }
{
    match init {
        None => false,
        Some(n) => n == 1,
    }
}

// The net that each latch stores, and its init.
pub(crate) fn latch_rows(
    alloc: Global,
    table: &[u32],
    model: &Model,
) -> Result<Vec<LatchRow>, AllocError>
    requires ids { HasIds model.now }
    requires table { length table.now ≡ length model.now.names }
    ensures { IfOk result (λ rows. map latch_row rows.items ≡ filter_map (row_for table.now) model.now.statements.items) }
{
    let mut rows = Vec::new(alloc);
    for located in &model.statements {
        if let Statement::Latch { d, init, .. } = &located.what {
            let d = net_of(table, *d);
            let init = init_bit(*init);
            rows.push(LatchRow { d, init })?;
        }
    }
    Ok(rows)
}

// The nets of ports.
pub(crate) fn port_nets(
    alloc: Global,
    table: &[u32],
    ports: &[Port],
) -> Result<Vec<NetId>, AllocError>
    requires { All (λ (port : ReadPort). IsWithin table.now port.name) ports.now }
    ensures { IfOk result (λ nets. map net_number nets.items ≡ map (λ (port : ReadPort). slice_index table.now port.name.0) ports.now) }
{
    let mut nets = Vec::new(alloc);
    for port in ports {
        nets.push(net_of(table, port.name))?;
    }
    Ok(nets)
}
