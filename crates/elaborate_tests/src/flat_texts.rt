// Small machines, and the text of their flat netlists.
ghost use Rattle.std.specs.Prelude.{◌≡◌, [], ◌∷◌, true, false, IfOk};
ghost use Rattle.netlist_spec.specs.Gates.{one, two};
ghost use Rattle.gate_net.specs.Gate.{gate_form};
ghost use Rattle.imp_io.specs.MemSink.{HasDistinctNumbers};

use blif_read::Clocking;
use blif_write::write;
use elaborated::{Elaborated, flat, name_flat};
use gate_net::{Gate, GateNet, LatchRow, Machine, NetId, Op};
use imp_io::MemSink;
use imp_text::{Name, Names};
use std::alloc::{AllocError, Global};
use std::test::Fail;

// The output y is the inverse of the input a.
fn inverter(alloc: Global) -> Result<Elaborated, AllocError> {
    let mut names = Names::new(alloc);
    let a = names.intern(b"a")?;
    let y = names.intern(b"y")?;
    let machine = inverter_machine(alloc)?;
    let model = Name::new(alloc, b"inv")?;
    let input_ports = vec![in alloc; a]?;
    let data_names = vec![in alloc; a]?;
    let output_names = vec![in alloc; y]?;
    Ok(Elaborated {
        machine,
        model,
        names,
        input_ports,
        clock_ports: Vec::new(alloc),
        data_names,
        output_names,
        latch_names: Vec::new(alloc),
        clocking: Clocking::Plain,
        unknown_inits: 0,
    })
}

fn inverter_machine(alloc: Global) -> Result<Machine, AllocError>
    ensures { IfOk result (λ m. m ≡ record { net = record { leaves = 1; gates = one true 0 ∷ [] }; inputs = 1; latches = []; outputs = 1 ∷ [] }) }
{
    let mut net = GateNet::new(alloc, 1)?;
    let inverse = net.push(Gate::One {
        inv: true,
        a: NetId(0),
    })?;
    let outputs = vec![in alloc; inverse]?;
    Ok(Machine {
        net,
        inputs: 1,
        latches: Vec::new(alloc),
        outputs,
    })
}

const INVERTER: &[u8] =
    b"# unknown inits 0\n.model inv\n.inputs a\n.outputs y\n.names a guard:n0\n0 1\n.names guard:n0 y\n1 1\n.end\n";

#[test]
fn an_output_of_a_gate_has_a_cell(rt: HostRuntime) -> Result<(), Fail> {
    let alloc = rt.alloc();
    let e = inverter(alloc)?;
    let nets = flat(alloc, &e)?;
    let g = name_flat(alloc, e, nets)?;
    let mut out = MemSink::new(alloc, Vec::new(alloc));
    assert_eq!(rt; write(&g, &mut out), Ok(()));
    assert_eq!(rt; out.bytes(), INVERTER);
    Ok(())
}

// Counts up in four latches, the lowest bit first, and gives them out.
fn counter(alloc: Global) -> Result<Elaborated, AllocError> {
    let mut names = Names::new(alloc);
    let a0 = names.intern(b"a0")?;
    let a1 = names.intern(b"a1")?;
    let a2 = names.intern(b"a2")?;
    let a3 = names.intern(b"a3")?;
    let machine = counter_machine(alloc)?;
    let model = Name::new(alloc, b"counter")?;
    let output_names = vec![in alloc; a0, a1, a2, a3]?;
    let latch_names = vec![in alloc; a0, a1, a2, a3]?;
    Ok(Elaborated {
        machine,
        model,
        names,
        input_ports: Vec::new(alloc),
        clock_ports: Vec::new(alloc),
        data_names: Vec::new(alloc),
        output_names,
        latch_names,
        clocking: Clocking::Plain,
        unknown_inits: 0,
    })
}

fn counter_machine(alloc: Global) -> Result<Machine, AllocError>
    ensures { IfOk result
        (λ m. m ≡ record {
          net = record { leaves = 4; gates = one true 0 ∷ two 6 0 1 ∷ two 8 0 1 ∷ two 6 6 2 ∷ two 8 6 2 ∷ two 6 8 3 ∷ [] };
          inputs = 0;
          latches = record { d = 4; init = false } ∷ record { d = 5; init = false } ∷ record { d = 7; init = false } ∷ record { d = 9; init = false } ∷ [];
          outputs = 0 ∷ 1 ∷ 2 ∷ 3 ∷ [];
        }) }
{
    let (a0, a1, a2, a3) = (NetId(0), NetId(1), NetId(2), NetId(3));
    let mut net = GateNet::new(alloc, 4)?;
    let n0 = net.push(Gate::One { inv: true, a: a0 })?;
    let n1 = net.push(table(Op::XOR, a0, a1))?;
    let c1 = net.push(table(Op::AND, a0, a1))?;
    let n2 = net.push(table(Op::XOR, c1, a2))?;
    let c2 = net.push(table(Op::AND, c1, a2))?;
    let n3 = net.push(table(Op::XOR, c2, a3))?;
    let latches = vec![in alloc;
        starts_at_0(n0),
        starts_at_0(n1),
        starts_at_0(n2),
        starts_at_0(n3),
    ]?;
    let outputs = vec![in alloc; a0, a1, a2, a3]?;
    Ok(Machine {
        net,
        inputs: 0,
        latches,
        outputs,
    })
}

fn table(op: Op, a: NetId, b: NetId) -> Gate
    ensures { gate_form result ≡ two op a.0 b.0 }
{
    Gate::Two { op, a, b }
}

fn starts_at_0(d: NetId) -> LatchRow
    ensures { result ≡ record { d = d; init = false } }
{
    LatchRow { d, init: false }
}

const COUNTER: &[u8] =
    b"# unknown inits 0\n.model counter\n.outputs a0\n.outputs a1\n.outputs a2\n.outputs a3\n\
.latch guard:n0 a0 0\n.latch guard:n1 a1 0\n.latch guard:n3 a2 0\n.latch guard:n5 a3 0\n\
.names a0 guard:n0\n0 1\n.names a0 a1 guard:n1\n01 1\n10 1\n.names a0 a1 guard:n2\n11 1\n\
.names guard:n2 a2 guard:n3\n01 1\n10 1\n.names guard:n2 a2 guard:n4\n11 1\n\
.names guard:n4 a3 guard:n5\n01 1\n10 1\n.end\n";

#[test]
fn latches_keep_their_names(rt: HostRuntime) -> Result<(), Fail> {
    let alloc = rt.alloc();
    let e = counter(alloc)?;
    let nets = flat(alloc, &e)?;
    let g = name_flat(alloc, e, nets)?;
    let mut out = MemSink::new(alloc, Vec::new(alloc));
    assert_eq!(rt; write(&g, &mut out), Ok(()));
    assert_eq!(rt; out.bytes(), COUNTER);
    Ok(())
}
