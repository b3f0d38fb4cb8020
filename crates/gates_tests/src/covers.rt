// Small covers, at all bits of their inputs or at some.
ghost use Rattle.std.specs.Prelude.{◌≡◌, ◌<◌, IfOk, length, map};
ghost use Rattle.std.specs.List.{AllByRecursion};
ghost use Rattle.gate_net.specs.Gate.{net_number};
ghost use Rattle.gate_net.specs.GateNet.{net_count};

use cover::lower;
use gate_net::{Gate, GateNet, NetId};
use imp_text::{Cover, Row};
use std::alloc::{AllocError, Global};
use std::test::Fail;

/// The bit of a net where the leaves have these bits.
fn bit_of(alloc: Global, net: &GateNet, leaves: &[bool], n: NetId) -> Result<bool, AllocError>
    requires leaves { length leaves.now ≡ net.now.leaves }
    requires net { n.0 < net_count net.now }
{
    let mut row = vec![in alloc; false; net.len() as usize]?;
    net.eval_into(leaves, &mut row);
    Ok(row[n.0 as usize])
}

/// The values of a cover of two inputs at 00, 01, 10 and 11, with input 0 first.
fn values(alloc: Global, cover: &Cover) -> Result<[bool; 4], AllocError>
    requires { length cover.now.rows.items < 1000 }
{
    let mut net = GateNet::new(alloc, 2)?;
    let n = lower(cover, &[NetId(0), NetId(1)], &mut net)?;
    Ok([
        bit_of(alloc, &net, &[false, false], n)?,
        bit_of(alloc, &net, &[false, true], n)?,
        bit_of(alloc, &net, &[true, false], n)?,
        bit_of(alloc, &net, &[true, true], n)?,
    ])
}

#[test]
fn covers_of_two_inputs(rt: HostRuntime) -> Result<(), Fail> {
    let alloc = rt.alloc();
    // `1- 1`, `-1 1`, which overlap
    let some = Cover {
        on: true,
        rows: vec![in alloc; Row { care: 1, value: 1 }, Row { care: 2, value: 2 }]?,
    };
    assert_eq!(rt; values(alloc, &some)?, [false, true, true, true]);
    // `10 0`, `11 0`
    let off = Cover {
        on: false,
        rows: vec![in alloc; Row { care: 3, value: 1 }, Row { care: 3, value: 3 }]?,
    };
    assert_eq!(rt; values(alloc, &off)?, [true, true, false, false]);
    // `-- 1`
    let any = Cover {
        on: true,
        rows: vec![in alloc; Row { care: 0, value: 0 }]?,
    };
    assert_eq!(rt; values(alloc, &any)?, [true; 4]);
    // no rows
    let none = Cover {
        on: true,
        rows: Vec::new(alloc),
    };
    assert_eq!(rt; values(alloc, &none)?, [false; 4]);
    Ok(())
}

#[test]
fn an_off_set_without_rows(rt: HostRuntime) -> Result<(), Fail> {
    let alloc = rt.alloc();
    let none = Cover {
        on: false,
        rows: Vec::new(alloc),
    };
    assert_eq!(rt; values(alloc, &none)?, [false; 4]);
    Ok(())
}

#[test]
fn a_row_of_one_literal_is_a_copy(rt: HostRuntime) -> Result<(), Fail> {
    let alloc = rt.alloc();
    // `-1 1`
    let cover = Cover {
        on: true,
        rows: vec![in alloc; Row { care: 2, value: 2 }]?,
    };
    let mut net = GateNet::new(alloc, 2)?;
    let n = lower(&cover, &[NetId(0), NetId(1)], &mut net)?;
    assert_eq!(rt; n, NetId(2));
    let copy = Gate::One {
        inv: false,
        a: NetId(1),
    };
    assert_eq!(rt; net.gate(n), copy);
    Ok(())
}

/// `1--------------1 1`, `-0-0------------ 1`, `------11-------- 1`
fn wide_cover(alloc: Global) -> Result<Cover, AllocError>
    ensures { IfOk result (λ cover. length cover.rows.items ≡ 3) }
{
    let rows = [
        Row {
            care: 0x8001,
            value: 0x8001,
        },
        Row {
            care: 0x000a,
            value: 0x0000,
        },
        Row {
            care: 0x00c0,
            value: 0x00c0,
        },
    ];
    Ok(Cover {
        on: true,
        rows: Vec::from_slice(alloc, &rows)?,
    })
}

/// The first 16 nets.
fn first_nets() -> [NetId; 16]
    ensures { AllByRecursion (λ n. n < 16) (map net_number result) }
{
    [
        NetId(0),
        NetId(1),
        NetId(2),
        NetId(3),
        NetId(4),
        NetId(5),
        NetId(6),
        NetId(7),
        NetId(8),
        NetId(9),
        NetId(10),
        NetId(11),
        NetId(12),
        NetId(13),
        NetId(14),
        NetId(15),
    ]
}

#[test]
fn a_cover_of_16_inputs(rt: HostRuntime) -> Result<(), Fail> {
    let alloc = rt.alloc();
    let cover = wide_cover(alloc)?;
    let mut net = GateNet::new(alloc, 16)?;
    let n = lower(&cover, &first_nets(), &mut net)?;
    assert!(rt; net.len() <= 16 + 104);
    let mut bits = [false; 16];
    assert!(rt; bit_of(alloc, &net, &bits, n)?);
    // Each of these inputs is set or cleared in turn.
    let steps = [
        (1, true, false),
        (0, true, false),
        (15, true, true),
        (0, false, false),
        (6, true, false),
        (7, true, true),
    ];
    for (input, bit, want) in &steps {
        bits[*input] = *bit;
        assert_eq!(rt; bit_of(alloc, &net, &bits, n)?, *want);
    }
    Ok(())
}
