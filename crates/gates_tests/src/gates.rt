// Small nets and machines.
ghost use Rattle.std.specs.Prelude.{◌≡◌, IfOk, length, false};
ghost use Rattle.gate_net.specs.GateNet.{net_count};

use gate_net::{Gate, GateNet, LatchRow, Machine, NetId, Op};
use std::alloc::{AllocError, Global};
use std::test::Fail;

/// Over leaves a and b: their sum, its inverse, 1, a copy of b, and the answer of `a and not b`.
fn small_net(alloc: Global) -> Result<GateNet, AllocError>
    ensures { IfOk result (λ net. (net.leaves ≡ 2) × (net_count net ≡ 7)) }
{
    let (a, b) = (NetId(0), NetId(1));
    let mut net = GateNet::new(alloc, 2)?;
    let sum = net.push(Gate::Two { op: Op::XOR, a, b })?;
    net.push(Gate::One { inv: true, a: sum })?;
    net.push(Gate::Const(true))?;
    net.push(Gate::One { inv: false, a: b })?;
    net.push(Gate::Two {
        op: Op(0b0100),
        a,
        b,
    })?;
    Ok(net)
}

#[test]
fn operations_have_their_tables(rt: HostRuntime) -> Result<(), Fail> {
    let operations = [
        (Op::AND, [false, false, false, true]),
        (Op::OR, [false, true, true, true]),
        (Op::XOR, [false, true, true, false]),
    ];
    for (op, table) in &operations {
        assert_eq!(rt; op.answer(false, false), table[0]);
        assert_eq!(rt; op.answer(false, true), table[1]);
        assert_eq!(rt; op.answer(true, false), table[2]);
        assert_eq!(rt; op.answer(true, true), table[3]);
    }
    Ok(())
}

#[test]
fn gates_have_their_answers(rt: HostRuntime) -> Result<(), Fail> {
    let net = small_net(rt.alloc())?;
    assert_eq!(rt; net.leaves(), 2);
    assert_eq!(rt; net.len(), 7);
    assert_eq!(rt;
        net.gate(NetId(3)),
        Gate::One {
            inv: true,
            a: NetId(2)
        }
    );
    let cases = [
        ([false, false], [false, true, true, false, false]),
        ([false, true], [true, false, true, true, false]),
        ([true, false], [true, false, true, false, true]),
        ([true, true], [false, true, true, true, false]),
    ];
    for (leaves, answers) in &cases {
        let mut row = [false; 7];
        net.eval_into(leaves, &mut row);
        assert_eq!(rt; row[..2], leaves[..]);
        assert_eq!(rt; row[2..], answers[..]);
    }
    Ok(())
}

/// Counts up in four latches, the lowest bit first, and gives them out.
fn counter(alloc: Global) -> Result<Machine, AllocError>
    ensures { IfOk result
        (λ m. (m.inputs ≡ 0) × (length m.latches ≡ 4) × (length m.outputs ≡ 4) × (net_count m.net ≡ 10)) }
{
    let (a0, a1, a2, a3) = (NetId(0), NetId(1), NetId(2), NetId(3));
    let mut net = GateNet::new(alloc, 4)?;
    let n0 = net.push(Gate::One { inv: true, a: a0 })?;
    let n1 = net.push(Gate::Two {
        op: Op::XOR,
        a: a0,
        b: a1,
    })?;
    let c1 = net.push(Gate::Two {
        op: Op::AND,
        a: a0,
        b: a1,
    })?;
    let n2 = net.push(Gate::Two {
        op: Op::XOR,
        a: c1,
        b: a2,
    })?;
    let c2 = net.push(Gate::Two {
        op: Op::AND,
        a: c1,
        b: a2,
    })?;
    let n3 = net.push(Gate::Two {
        op: Op::XOR,
        a: c2,
        b: a3,
    })?;
    let latches = vec![in alloc;
        starts_at_zero(n0),
        starts_at_zero(n1),
        starts_at_zero(n2),
        starts_at_zero(n3),
    ]?;
    let outputs = vec![in alloc; a0, a1, a2, a3]?;
    Ok(Machine {
        net,
        inputs: 0,
        latches,
        outputs,
    })
}

fn starts_at_zero(d: NetId) -> LatchRow
    ensures { result ≡ record { d = d; init = false } }
{
    LatchRow { d, init: false }
}

#[test]
fn the_counter_counts(rt: HostRuntime) -> Result<(), Fail> {
    let machine = counter(rt.alloc())?;
    let mut state = [false; 4];
    let mut row = [false; 10];
    let mut out = [true; 4];
    let expected = [
        [false, false, false, false],
        [true, false, false, false],
        [false, true, false, false],
        [true, true, false, false],
        [false, false, true, false],
        [true, false, true, false],
    ];
    for bits in &expected {
        machine.step_into(&[], &mut state, &mut row, &mut out);
        assert_eq!(rt; out, *bits);
    }
    Ok(())
}

/// A latch that a data input turns, with the input and the latch as outputs.
fn toggle(alloc: Global) -> Result<Machine, AllocError>
    ensures { IfOk result
        (λ m. (m.inputs ≡ 1) × (length m.latches ≡ 1) × (length m.outputs ≡ 2) × (net_count m.net ≡ 3)) }
{
    let mut net = GateNet::new(alloc, 2)?;
    let turned = net.push(Gate::Two {
        op: Op::XOR,
        a: NetId(0),
        b: NetId(1),
    })?;
    let latches = vec![in alloc;
        LatchRow {
            d: turned,
            init: true
        },
    ]?;
    let outputs = vec![in alloc; NetId(0), NetId(1)]?;
    Ok(Machine {
        net,
        inputs: 1,
        latches,
        outputs,
    })
}

#[test]
fn the_input_turns_the_toggle(rt: HostRuntime) -> Result<(), Fail> {
    let machine = toggle(rt.alloc())?;
    let mut state = [true];
    let mut row = [false; 3];
    let mut out = [false; 2];
    for (x, kept) in [
        (true, true),
        (true, false),
        (false, true),
        (true, true),
        (false, false),
    ] {
        machine.step_into(&[x], &mut state, &mut row, &mut out);
        assert_eq!(rt; out, [x, kept]);
    }
    Ok(())
}
