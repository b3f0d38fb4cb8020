// Small gate lists, and their texts and files.
ghost use Rattle.std.specs.Prelude.{◌≡◌, [], ◌∷◌, IfOk};
ghost use Rattle.imp_io.specs.MemSink.{HasDistinctNumbers};

use blif_read::{Clocking, File};
use blif_write::{WriteRefusal, as_file, write};
use gate_net::{Gate, GateNet, LatchRow, NetId, Op};
use imp_io::MemSink;
use imp_text::{Name, NameId, Names};
use named_netlist::{Label, Named};
use std::alloc::{AllocError, Global};
use std::test::Fail;

// A register that turns its bit in each cycle: latch q stores n, the inverse of q.
fn inverter(alloc: Global) -> Result<Named, AllocError> {
    let mut names = Names::new(alloc);
    let q = names.intern(b"q")?;
    let n = names.intern(b"n")?;
    let mut net = GateNet::new(alloc, 1)?;
    net.push(Gate::One {
        inv: true,
        a: NetId(0),
    })?;
    let model = Name::new(alloc, b"inv")?;
    let outputs = vec![in alloc; NetId(0)]?;
    let labels = vec![in alloc; Label::Given(q), Label::Given(n)]?;
    let row = LatchRow {
        d: NetId(1),
        init: false,
    };
    let latches = vec![in alloc; row]?;
    Ok(Named {
        model,
        names,
        unknown_inits: 0,
        inputs: Vec::new(alloc),
        clocks: Vec::new(alloc),
        outputs,
        clocking: Clocking::Plain,
        net,
        labels,
        latches,
        data_inputs: 0,
    })
}

const INVERTER: &[u8] =
    b"# unknown inits 0\n.model inv\n.outputs q\n.latch n q 0\n.names q n\n0 1\n.end\n";

#[test]
fn a_register_is_written(rt: HostRuntime) -> Result<(), Fail> {
    let alloc = rt.alloc();
    let g = inverter(alloc)?;
    let mut out = MemSink::new(alloc, Vec::new(alloc));
    assert_eq!(rt; write(&g, &mut out), Ok(()));
    assert_eq!(rt; out.bytes(), INVERTER);
    Ok(())
}

#[test]
fn a_failed_put_leaves_a_prefix(rt: HostRuntime) -> Result<(), Fail> {
    let alloc = rt.alloc();
    let g = inverter(alloc)?;
    let mut out = MemSink::new(alloc, vec![in alloc; (1, 21)]?);
    assert_eq!(rt; write(&g, &mut out), Err(WriteRefusal::Fault));
    assert_eq!(rt; out.bytes(), b"# unknown inits 0\n.mo".as_slice());
    Ok(())
}

// A gate of each kind, a latch that rises with `clk`, names that a guard adds, and bytes that are rare in names.
fn each_kind(alloc: Global) -> Result<Named, AllocError> {
    let mut names = Names::new(alloc);
    let clock = names.intern(b"clk")?;
    let bit = names.intern(b"q[0]$")?;
    let last = names.intern(b"a\\b\xff")?;
    let mut net = GateNet::new(alloc, 2)?;
    net.push(Gate::Const(false))?;
    net.push(Gate::Const(true))?;
    net.push(Gate::One {
        inv: false,
        a: NetId(0),
    })?;
    net.push(Gate::One {
        inv: true,
        a: NetId(1),
    })?;
    net.push(Gate::Two {
        op: Op(7),
        a: NetId(0),
        b: NetId(1),
    })?;
    let model = Name::new(alloc, b"each\\kind")?;
    let inputs = vec![in alloc; clock, bit]?;
    let outputs = vec![in alloc; NetId(6), NetId(0)]?;
    let labels = vec![in alloc;
        Label::Given(bit),
        Label::Store { word: 0, place: 12 },
        Label::Next { word: 1, place: 0 },
        Label::Check { word: 0, bit: 2 },
        Label::Rail(1),
        Label::Inner(10),
        Label::Given(last),
    ]?;
    let row = LatchRow {
        d: NetId(5),
        init: true,
    };
    let latches = vec![in alloc; row]?;
    Ok(Named {
        model,
        names,
        unknown_inits: 12,
        inputs,
        clocks: Vec::new(alloc),
        outputs,
        clocking: Clocking::Edge {
            rising: true,
            control: Some(clock),
        },
        net,
        labels,
        latches,
        data_inputs: 1,
    })
}

const EACH_KIND: &[u8] = b"# unknown inits 12\n.model each\\kind\n.inputs clk\n.inputs q[0]$\n\
.outputs a\\b\xff\n.outputs q[0]$\n.latch guard:n10 guard:s0:12 re clk 1\n\
.names guard:d1:0\n.names guard:o0:c2\n1\n.names q[0]$ guard:alarm1\n1 1\n\
.names guard:s0:12 guard:n10\n0 1\n.names q[0]$ guard:s0:12 a\\b\xff\n00 1\n01 1\n10 1\n.end\n";

#[test]
fn each_kind_is_written(rt: HostRuntime) -> Result<(), Fail> {
    let alloc = rt.alloc();
    let g = each_kind(alloc)?;
    let mut out = MemSink::new(alloc, Vec::new(alloc));
    assert_eq!(rt; write(&g, &mut out), Ok(()));
    assert_eq!(rt; out.bytes(), EACH_KIND);
    Ok(())
}

// The numbers of the lines of a file: of `.model`, of each port and of each statement.
fn lines_in(alloc: Global, file: &File) -> Result<Vec<u32>, AllocError> {
    let mut lines = Vec::new(alloc);
    for m in &file.models {
        lines.push(m.line)?;
        for port in m.inputs.iter().chain(&m.outputs).chain(&m.clocks) {
            lines.push(port.line)?;
        }
        for s in &m.statements {
            lines.push(s.line)?;
        }
    }
    Ok(lines)
}

#[test]
fn files_have_the_lines_of_their_texts(rt: HostRuntime) -> Result<(), Fail> {
    let alloc = rt.alloc();
    let register = as_file(alloc, &inverter(alloc)?)?;
    assert_eq!(rt;
        lines_in(alloc, &register)?.as_slice(),
        [2, 3, 4, 5].as_slice()
    );
    let file = as_file(alloc, &each_kind(alloc)?)?;
    let expected = [2, 3, 4, 5, 6, 7, 8, 9, 11, 13, 15];
    assert_eq!(rt; lines_in(alloc, &file)?.as_slice(), expected.as_slice());
    for m in &file.models {
        assert_eq!(rt; m.names.find(b"q[0]$"), Some(NameId(1)));
        assert_eq!(rt; m.names.find(b"guard:s0:12"), Some(NameId(4)));
    }
    Ok(())
}
