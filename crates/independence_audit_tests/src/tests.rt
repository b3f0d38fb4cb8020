// What is found in small netlists.
use blif_read::read;
use gate_net::Bit;
use independence_audit::types::Audit;
use independence_audit::{AuditFault, audit};
use std::alloc::Global;
use std::test::Fail;

const LONGEST_TEXT: usize = 1000;

#[derive(Clone, Copy, Debug, PartialEq, Eq)]
enum Answer {
    Independent(usize),
    Wide(u32),
    Unused(u32),
    Shared(u32, Bit, Bit),
    OutputRead(u32),
    Unordered(u32),
    HasSubckt(u32),
    NoMemory,
    Unread,
}

fn told(alloc: Global, text: &[u8]) -> Answer {
    if text.len() > LONGEST_TEXT {
        return Answer::Unread;
    }
    let Ok(file) = read(alloc, text) else {
        return Answer::Unread;
    };
    match audit(alloc, &file) {
        Ok(Audit::Independent(bits)) => Answer::Independent(bits.len()),
        Ok(Audit::Wide { cell }) => Answer::Wide(cell.0),
        Ok(Audit::Unused { cell }) => Answer::Unused(cell.0),
        Ok(Audit::Shared { cell, one, other }) => Answer::Shared(cell.0, one, other),
        Ok(Audit::OutputRead { cell, .. }) => Answer::OutputRead(cell.0),
        Err(AuditFault::Unordered(line)) => Answer::Unordered(line),
        Err(AuditFault::HasSubckt(line)) => Answer::HasSubckt(line),
        Err(AuditFault::NoMemory) => Answer::NoMemory,
    }
}

// A gate that two latches share, and one that serves the second latch alone.
const SHARED: &[u8] =
    b".model h\n.inputs x\n.outputs y\n.latch n a 0\n.latch n b 0\n.names x n\n1 1\n.names a b y\n11 1\n.end\n";

const ALONE: &[u8] =
    b".model h\n.inputs x\n.outputs y\n.latch n a 0\n.latch x b 0\n.names x n\n1 1\n.names a b y\n11 1\n.end\n";

#[test]
fn first_findings_are_told(rt: HostRuntime) -> Result<(), Fail> {
    let cases: [(&[u8], Answer); 17] = [
        (SHARED, Answer::Shared(2, Bit::Latch(0), Bit::Latch(1))),
        (ALONE, Answer::Independent(4)),
        (b".model e\n.end\n", Answer::Independent(0)),
        (
            b".model h\n.inputs a b c\n.outputs y\n.names a b c y\n111 1\n.end\n",
            Answer::Wide(0),
        ),
        (
            b".model h\n.inputs a\n.outputs y\n.names a z\n1 1\n.names a y\n1 1\n.end\n",
            Answer::Unused(0),
        ),
        (
            b".model h\n.inputs a\n.outputs y z\n.names a y\n1 1\n.names y z\n0 1\n.end\n",
            Answer::OutputRead(1),
        ),
        // a wide cell that nothing reads is wide, and a latch stands before outputs
        (
            b".model h\n.inputs a b c\n.outputs y\n.names a b c z\n111 1\n.names a y\n1 1\n.end\n",
            Answer::Wide(0),
        ),
        (
            b".model h\n.inputs a\n.outputs u v\n.latch n q 0\n.names a n\n1 1\n.names n u\n1 1\n.names n v\n1 1\n.end\n",
            Answer::Shared(1, Bit::Latch(0), Bit::Output(0)),
        ),
        // a latch whose Q is an output, and a net that is an output and a D
        (
            b".model h\n.inputs a\n.outputs q\n.latch a q 0\n.end\n",
            Answer::Shared(0, Bit::Latch(0), Bit::Output(0)),
        ),
        (
            b".model h\n.inputs a\n.outputs y\n.latch y q 0\n.names a y\n1 1\n.end\n",
            Answer::Shared(1, Bit::Latch(0), Bit::Output(0)),
        ),
        // a rail may read an output; an input with a rail's name is driven by no cell, and its reader is no rail
        (
            b".model h\n.inputs a\n.outputs y guard:alarm:0\n.names a y\n1 1\n.names y guard:alarm:0\n0 1\n.end\n",
            Answer::Independent(2),
        ),
        (
            b".model h\n.inputs guard:alarm:0\n.outputs guard:alarm:0 y\n.names guard:alarm:0 y\n1 1\n.end\n",
            Answer::Independent(1),
        ),
        (
            b".model h\n.inputs guard:alarm:0\n.outputs y z\n.names guard:alarm:0 y\n1 1\n.names y z\n1 1\n.end\n",
            Answer::OutputRead(1),
        ),
        // a cell that reads itself through a latch, one that reads a net twice, and one whose bit stands behind an output
        (
            b".model h\n.latch n q 0\n.names q n\n0 1\n.end\n",
            Answer::Independent(2),
        ),
        (
            b".model h\n.inputs a\n.outputs y\n.names a n\n1 1\n.names n n y\n11 1\n.end\n",
            Answer::Independent(2),
        ),
        (
            b".model h\n.inputs a\n.outputs y\n.names m y\n0 1\n.names a m\n0 1\n",
            Answer::Unordered(4),
        ),
        (b".model h\n.subckt s a=b\n", Answer::HasSubckt(2)),
    ];
    for (text, expected) in cases {
        assert_eq!(rt; told(rt.alloc(), text), expected);
    }
    Ok(())
}

#[test]
fn bits_stand_in_file_order(rt: HostRuntime) -> Result<(), Fail> {
    let Ok(file) = read(rt.alloc(), ALONE) else {
        return Err(Fail::new("another answer"));
    };
    let Ok(Audit::Independent(bits)) = audit(rt.alloc(), &file) else {
        return Err(Fail::new("another answer"));
    };
    assert_eq!(rt;
        bits.as_slice(),
        [Bit::Latch(0), Bit::Latch(1), Bit::Latch(0), Bit::Output(0)].as_slice()
    );
    Ok(())
}
