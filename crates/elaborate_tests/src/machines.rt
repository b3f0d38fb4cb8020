// Machines of sources: their gates, their unknown inits, and their runs.
use blif_read::read;
use elaborate::elaborate;
use elaborated::Elaborated;
use gate_net::{Gate, NetId, Op};
use std::alloc::{AllocError, Global};
use std::test::Fail;

// The machine of a text, where it is short and has a meaning.
fn machine_of(alloc: Global, text: &[u8]) -> Result<Option<Elaborated>, AllocError> {
    if text.len() > 1000 {
        return Ok(None);
    }
    match read(alloc, text) {
        Ok(file) => Ok(elaborate(alloc, file, &[], &[]).ok()),
        Err(_) => Ok(None),
    }
}

// The first gate of the machine of a text.
fn first_gate(alloc: Global, text: &[u8]) -> Result<Option<Gate>, AllocError> {
    let Some(e) = machine_of(alloc, text)? else {
        return Ok(None);
    };
    let net = &e.machine.net;
    if net.leaves() < net.len() {
        Ok(Some(net.gate(NetId(net.leaves()))))
    } else {
        Ok(None)
    }
}

// The gate with that table over the two inputs.
fn table(op: Op) -> Gate {
    Gate::Two {
        op,
        a: NetId(0),
        b: NetId(1),
    }
}

#[test]
fn covers_become_gates(rt: HostRuntime) -> Result<(), Fail> {
    let a = NetId(0);
    let cases = [
        (
            b".model m\n.inputs a b\n.names y\n1\n".as_slice(),
            Gate::Const(true),
        ),
        (
            b".model m\n.inputs a b\n.names a y\n- 1\n".as_slice(),
            Gate::Const(true),
        ),
        (
            b".model m\n.inputs a b\n.names y\n".as_slice(),
            Gate::Const(false),
        ),
        (
            b".model m\n.inputs a b\n.names a b y\n".as_slice(),
            Gate::Const(false),
        ),
        (
            b".model m\n.inputs a b\n.names a y\n1 1\n".as_slice(),
            Gate::One { inv: false, a },
        ),
        (
            b".model m\n.inputs a b\n.names a b y\n1- 1\n".as_slice(),
            table(Op(0b1100)),
        ),
        (
            b".model m\n.inputs a b\n.names a y\n0 1\n".as_slice(),
            Gate::One { inv: true, a },
        ),
        (
            b".model m\n.inputs a b\n.names a b y\n00 0\n".as_slice(),
            table(Op(0b1110)),
        ),
        (
            b".model m\n.inputs a b\n.names a b y\n-1 0\n".as_slice(),
            table(Op(0b0101)),
        ),
    ];
    for (text, gate) in cases {
        let first = first_gate(rt.alloc(), text)?;
        assert_eq!(rt; first, Some(gate), "at {text:?}");
    }
    Ok(())
}

#[test]
fn inits_that_are_unknown_are_counted(rt: HostRuntime) -> Result<(), Fail> {
    let text =
        b".model m\n.inputs d\n.latch d a\n.latch d b 0\n.latch d c 1\n.latch d e 2\n.latch d f 3\n";
    let Some(e) = machine_of(rt.alloc(), text)? else {
        panic!(rt; "it has a meaning");
    };
    assert_eq!(rt; e.unknown_inits, 3);
    Ok(())
}

// The outputs in each of six cycles, with the bit as each input.
fn shown(alloc: Global, text: &[u8], bit: bool) -> Result<Vec<u8>, AllocError> {
    let mut lines = Vec::new(alloc);
    if let Some(e) = machine_of(alloc, text)? {
        let machine = &e.machine;
        let x = vec![in alloc; bit; machine.inputs as usize]?;
        let mut state = Vec::new(alloc);
        for latch in machine.latches.iter() {
            state.push(latch.init)?;
        }
        let mut row = vec![in alloc; false; machine.net.len() as usize]?;
        let mut out = vec![in alloc; false; machine.outputs.len()]?;
        for _ in 0..6 {
            // The lengths that `step_into` asks for.
            if state.len() == machine.latches.len()
                && row.len() == machine.net.len() as usize
                && out.len() == machine.outputs.len()
            {
                machine.step_into(&x, &mut state, &mut row, &mut out);
            }
            for bit in out.iter() {
                lines.push(if *bit { b'1' } else { b'0' })?;
            }
            lines.push(b' ')?;
        }
    }
    Ok(lines)
}

#[test]
fn machines_run_as_their_sources(rt: HostRuntime) -> Result<(), Fail> {
    let cases = [
        (
            b".model counter\n.outputs a0 a1 a2 a3\n.latch n0 a0 0\n.latch n1 a1 0\n.latch n2 a2 0\n.latch n3 a3 0\n.names a0 n0\n0 1\n.names a0 a1 n1\n10 1\n01 1\n.names a0 a1 c1\n11 1\n.names c1 a2 n2\n10 1\n01 1\n.names c1 a2 c2\n11 1\n.names c2 a3 n3\n10 1\n01 1\n.end\n".as_slice(),
            b"0000 1000 0100 1100 0010 1010 ".as_slice(),
        ),
        (
            b".model m\n.inputs a\n.outputs z o c i f q p\n.latch i q 1\n.latch q p\n.names z\n.names o\n1\n.names a c\n1 1\n.names a i\n1 0\n.names q c f\n11 0\n1- 0\n.end\n".as_slice(),
            b"0110010 0110101 0110100 0110100 0110100 0110100 ".as_slice(),
        ),
    ];
    for (text, lines) in cases {
        let ran = shown(rt.alloc(), text, true)?;
        assert_eq!(rt; ran.as_slice(), lines);
    }
    Ok(())
}
