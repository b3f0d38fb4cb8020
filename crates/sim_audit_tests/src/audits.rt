// The command `audit`.

use crate::simulations::INVERTER;
use memory_runs::{held, run_line};
use std::alloc::Global;
use std::test::Fail;

// A cell that two latches share, and one for each.
const SHARED: &str =
    "# Two latches that store one net: the cell of that net serves both.\n.model shared\n.inputs x\n.outputs y\n\
    .latch n a 0\n.latch n b 0\n.names x n\n1 1\n.names a b y\n11 1\n.end\n";

const APART: &str =
    ".model h\n.inputs x\n.outputs y\n.latch n a 0\n.latch x b 0\n.names x n\n1 1\n.names a b y\n11 1\n.end\n";

// Audits: the lines of all cells, or that of the first finding.
#[test]
fn netlists_are_audited(rt: HostRuntime) -> Result<(), Fail> {
    let alloc = rt.alloc();
    let cases: [(&[u8], u8, &[u8]); 11] = [
        (SHARED.as_bytes(), 6, b"shared n latch a latch b\n"),
        (
            APART.as_bytes(),
            0,
            b"independent 4\na latch a\nb latch b\nn latch a\ny output y\n",
        ),
        (
            b".model h\n.inputs a b c\n.outputs y\n.names a b c y\n111 1\n.end\n",
            6,
            b"wide y\n",
        ),
        (
            b".model h\n.inputs a\n.outputs y\n.names a z\n1 1\n.names a y\n1 1\n.end\n",
            6,
            b"unused z\n",
        ),
        (
            b".model h\n.inputs a\n.outputs y z\n.names a y\n1 1\n.names y z\n0 1\n.end\n",
            6,
            b"output-read y z\n",
        ),
        (b".model e\n.end\n", 0, b"independent 0\n"),
        (INVERTER.as_bytes(), 6, b"shared q latch q output q\n"),
        (
            b".model h\n.inputs a\n.outputs y guard:alarm:0\n.names a y\n1 1\n.names y guard:alarm:0\n0 1\n.end\n",
            0,
            b"independent 2\ny output y\nguard:alarm:0 output guard:alarm:0\n",
        ),
        // Names are printed as they are.
        (
            b".model h\n.inputs \\a\n.outputs y\\x41\xff\n.latch n \\q\\ 0\n.names \\a n\n1 1\n.names \\q\\ y\\x41\xff\n0 1\n.end\n",
            0,
            b"independent 3\n\\q\\ latch \\q\\\nn latch \\q\\\ny\\x41\xff output y\\x41\xff\n",
        ),
        (
            b".model h\n.inputs a\n.outputs \\y z\x80\n.names a \\y\n1 1\n.names \\y z\x80\n0 1\n.end\n",
            6,
            b"output-read \\y z\x80\n",
        ),
        (
            b".model h\n.inputs a\n.outputs u v\n.latch \\n q 0\n.names a \\n\n1 1\n.names \\n u\n1 1\n.names \\n v\n1 1\n.end\n",
            6,
            b"shared \\n latch q output u\n",
        ),
    ];
    for (text, status, told) in cases {
        let mut files = held(alloc, "e.blif", text.to_vec(alloc)?, Vec::new(alloc))?;
        let ran = run_line(alloc, "audit e.blif", &mut files, Vec::new(alloc))?;
        assert_eq!(rt; ran.err.bytes(), b"".as_slice());
        assert_eq!(rt; ran.out.bytes(), told);
        assert_eq!(rt; ran.status, status);
    }
    Ok(())
}

// What `audit` tells of netlists that it refuses, and of a load and a put that fail.
#[test]
fn audits_are_refused(rt: HostRuntime) -> Result<(), Fail> {
    let alloc = rt.alloc();
    let cases = [
        ("e.blif", "", 1, "B5 line 0 no model"),
        (
            "e.blif",
            ".model c\n.inputs a b\n.outputs y\n.names a b y\n00 0\n11 1\n",
            1,
            "B3 line 6 mixed cover",
        ),
        (
            "e.blif",
            ".model r\n.inputs a\n.outputs y\n.names m y\n0 1\n.names a m\n0 1\n",
            1,
            "M1 line 4 unordered",
        ),
        (
            "e.blif",
            ".model m\n.subckt s\n.end\n.model s\n",
            1,
            "M2 line 2 has subckt",
        ),
        ("f.blif", ".model e\n", 3, "cannot read f.blif"),
    ];
    for (name, text, status, told) in cases {
        let mut files = held(
            alloc,
            "e.blif",
            text.as_bytes().to_vec(alloc)?,
            Vec::new(alloc),
        )?;
        let line = format!(in alloc; "audit {name}")?;
        let ran = run_line(alloc, &line, &mut files, Vec::new(alloc))?;
        assert_eq!(rt; ran.status, status);
        assert_eq!(rt; ran.out.bytes(), b"".as_slice());
        let line = format!(in alloc; "impeccable: {told}\n")?;
        assert_eq!(rt; ran.err.bytes(), line.as_bytes());
    }
    let text = SHARED.as_bytes().to_vec(alloc)?;
    let mut files = held(alloc, "e.blif", text, Vec::new(alloc))?;
    let ran = run_line(alloc, "audit e.blif", &mut files, vec![in alloc; (1, 3)]?)?;
    assert_eq!(rt; ran.status, 4);
    assert_eq!(rt; ran.out.bytes(), b"sha".as_slice());
    assert_eq!(rt; ran.err.bytes(), b"impeccable: cannot write\n".as_slice());
    Ok(())
}
