// The command `demo` for the smallest design.

use crate::files::{Three, cells_of, number_of, written};
use demo_design::demo_design;
use memory_runs::run_line;
use std::test::Fail;

// The sizes of the design, and the five lines that `campaign` writes in front of its guard.
#[test]
fn the_smallest_demo(rt: HostRuntime) -> Result<(), Fail> {
    let alloc = rt.alloc();
    let design = demo_design(alloc, 1)?;
    let mut files = Three {
        settings: &design.settings,
        netlist: &design.netlist,
        stimulus: &design.stimulus,
    };
    let guarded = run_line(alloc, "guard c n", &mut files, Vec::new(alloc))?;
    assert_eq!(rt; guarded.status, 0);
    let guard = written(&guarded)?;
    let cells = cells_of(guard) as u64;
    assert!(rt; cells <= 4724);
    for line in ["demo 1", "demo 01"] {
        let shown = run_line(alloc, line, &mut files, Vec::new(alloc))?;
        assert_eq!(rt; shown.err.bytes(), b"".as_slice());
        assert_eq!(rt; shown.status, 0);
        let text = written(&shown)?;
        let right = u64::from(number_of(text, "right ")?);
        let alarmed = u64::from(number_of(text, "alarmed ")?);
        assert_eq!(rt; right + alarmed, cells.saturating_mul(2));
        let lines = format!(in alloc;
            "cells {cells}\nright {right}\nalarmed {alarmed}\ndecoded 0\nwrong 0\n"
        )?;
        let whole = format!(in alloc; "statements 13\nlatches 4\nplain 4724\n{lines}")?;
        assert_eq!(rt; text, whole.as_str());
        let tried = run_line(alloc, "campaign c n s 3", &mut files, Vec::new(alloc))?;
        assert_eq!(rt; tried.status, 0);
        let both = format!(in alloc; "{lines}{guard}")?;
        assert_eq!(rt; written(&tried)?, both.as_str());
    }
    Ok(())
}

// The text is one put: where that fails some bytes of it stand there, and no second put is tried.
#[test]
fn puts_that_fail(rt: HostRuntime) -> Result<(), Fail> {
    let alloc = rt.alloc();
    let mut files = Three {
        settings: b"",
        netlist: b"",
        stimulus: b"",
    };
    let whole = run_line(alloc, "demo 1", &mut files, Vec::new(alloc))?;
    assert_eq!(rt; whole.status, 0);
    for taken in [0, 1, 20] {
        let ran = run_line(alloc, "demo 1", &mut files, vec![in alloc; (1, taken)]?)?;
        assert_eq!(rt; ran.status, 4);
        assert_eq!(rt; ran.out.bytes().len(), taken as usize);
        assert!(rt; whole.out.bytes().starts_with(ran.out.bytes()));
        assert_eq!(rt; ran.err.bytes(), b"impeccable: cannot write\n".as_slice());
    }
    let ran = run_line(alloc, "demo 1", &mut files, vec![in alloc; (2, 0)]?)?;
    assert_eq!(rt; ran.status, 0);
    assert_eq!(rt; ran.out.bytes(), whole.out.bytes());
    Ok(())
}
