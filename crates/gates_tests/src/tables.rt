// The S-box of PRESENT at all its inputs, and a table of 8 inputs and 8 outputs.
ghost use Rattle.std.specs.Prelude.{◌≡◌, ◌≤◌, ◌<◌, IfOk, length, map};
ghost use Rattle.std.specs.List.{AllByRecursion};
ghost use Rattle.gate_net.specs.Gate.{net_number};
ghost use Rattle.gate_net.specs.GateNet.{net_count};

use gate_net::{GateNet, NetId};
use sbox_table::{Table, lower};
use std::alloc::{AllocError, Global};
use std::test::Fail;

/// The first nets.
fn first_nets(alloc: Global, count: u8) -> Result<Vec<NetId>, AllocError>
    ensures count { IfOk result (λ ns. length ns.items ≡ count) }
    ensures below { IfOk result (λ ns. AllByRecursion (λ n. n < count) (map net_number ns.items)) }
{
    let mut nets = Vec::new(alloc);
    for n in 0..u32::from(count) {
        nets.push(NetId(n))?;
    }
    Ok(nets)
}

/// The lowest bits of a number, the lowest one first.
fn low_bits(alloc: Global, number: u16, count: u8) -> Result<Vec<bool>, AllocError>
    requires { count ≤ 8 }
    ensures { IfOk result (λ bits. length bits.items ≡ count) }
{
    let mut bits = Vec::new(alloc);
    for i in 0..count {
        bits.push(number >> i & 1 == 1)?;
    }
    Ok(bits)
}

/// The bits of some nets where the leaves have these bits.
fn bits_of(
    alloc: Global,
    net: &GateNet,
    leaves: &[bool],
    nets: &[NetId],
) -> Result<Vec<bool>, AllocError>
    requires leaves { length leaves.now ≡ net.now.leaves }
    requires nets { AllByRecursion (λ n. n < net_count net.now) (map net_number nets.now) }
{
    let mut row = vec![in alloc; false; net.len() as usize]?;
    net.eval_into(leaves, &mut row);
    let mut bits = Vec::new(alloc);
    for n in nets {
        bits.push(row[n.0 as usize])?;
    }
    Ok(bits)
}

/// The outputs of a table where its inputs spell the number.
fn outputs(alloc: Global, table: &Table, number: u16) -> Result<Vec<bool>, AllocError> {
    prove!(table.ins <= 8);
    let mut net = GateNet::new(alloc, u32::from(table.ins))?;
    let ins = first_nets(alloc, table.ins)?;
    let outs = lower(alloc, table, &ins, &mut net)?;
    let inputs = low_bits(alloc, number, table.ins)?;
    bits_of(alloc, &net, &inputs, &outs)
}

#[test]
fn the_table_of_present(rt: HostRuntime) -> Result<(), Fail> {
    let alloc = rt.alloc();
    let rows = [12, 5, 6, 11, 9, 0, 10, 13, 3, 14, 15, 8, 4, 7, 1, 2];
    let table = Table::new(4, 4, Vec::from_slice(alloc, &rows)?).ok_or("a table")?;
    for (number, row) in rows.iter().enumerate() {
        let bits = outputs(alloc, &table, number as u16)?;
        let want = low_bits(alloc, *row, 4)?;
        assert_eq!(rt; bits.as_slice(), want.as_slice());
    }
    Ok(())
}

#[test]
fn a_table_of_8_inputs(rt: HostRuntime) -> Result<(), Fail> {
    let alloc = rt.alloc();
    // 7 n + 3, with the bits past the eighth left out
    let mut rows = Vec::new(alloc);
    for n in 0..256u16 {
        rows.push(n.wrapping_mul(7).wrapping_add(3) & 255)?;
    }
    let table = Table::new(8, 8, rows).ok_or("a table")?;
    for (number, row) in &[(0, 3), (1, 10), (37, 6), (128, 131), (255, 252)] {
        let bits = outputs(alloc, &table, *number)?;
        let want = low_bits(alloc, *row, 8)?;
        assert_eq!(rt; bits.as_slice(), want.as_slice());
    }
    Ok(())
}

#[test]
fn rows_that_are_no_table(rt: HostRuntime) -> Result<(), Fail> {
    let alloc = rt.alloc();
    assert!(rt; Table::new(1, 2, vec![in alloc; 0, 3]?).is_some());
    assert!(rt; Table::new(1, 2, vec![in alloc; 0, 4]?).is_none());
    assert!(rt; Table::new(1, 2, vec![in alloc; 0, 1, 2]?).is_none());
    assert!(rt; Table::new(0, 1, vec![in alloc; 1]?).is_none());
    assert!(rt; Table::new(1, 9, vec![in alloc; 0, 1]?).is_none());
    Ok(())
}
