// The command `campaign` over files that it accepts.

use crate::files::{INVERTER, PARITY, Three, cells_of, number_of, perform, written};
use memory_runs::run_line;
use std::test::Fail;

const COUNTER: &str =
    ".model counter\n.outputs a0 a1 a2 a3\n.latch n0 a0 0\n.latch n1 a1 0\n.latch n2 a2 0\n.latch n3 a3 0\n\
    .names a0 n0\n0 1\n.names a0 a1 n1\n10 1\n01 1\n.names a0 a1 c1\n11 1\n.names c1 a2 n2\n10 1\n01 1\n.names c1 a2 c2\n11 1\n\
    .names c2 a3 n3\n10 1\n01 1\n.end\n";

const CORRECTING: &str =
    "mode = \"correct\"\nbound = 1\ncheck = [\"011\", \"101\", \"110\", \"111\"]\n";

const REPEATING: &str = "mode = \"correct\"\nbound = 1\ncheck = [\"11\"]\n";

// A counter in correction: five lines, of which two are 0, and the text of its guard.
#[test]
fn a_counter_is_tried(rt: HostRuntime) -> Result<(), Fail> {
    let alloc = rt.alloc();
    let tried = perform(
        alloc,
        "campaign c n s 3",
        CORRECTING,
        COUNTER,
        "-\n-\n-\n-\n-\n-\n",
    )?;
    assert_eq!(rt; tried.err.bytes(), b"".as_slice());
    assert_eq!(rt; tried.status, 0);
    let guarded = perform(alloc, "guard c n", CORRECTING, COUNTER, "")?;
    assert_eq!(rt; guarded.status, 0);
    let text = written(&tried)?;
    let guard = written(&guarded)?;
    let cells = cells_of(guard) as u64;
    let right = u64::from(number_of(text, "right ")?);
    let decoded = u64::from(number_of(text, "decoded ")?);
    let whole = format!(in alloc;
        "cells {cells}\nright {right}\nalarmed 0\ndecoded {decoded}\nwrong 0\n{guard}"
    )?;
    assert_eq!(rt; text, whole.as_str());
    assert_eq!(rt; right + decoded, cells.saturating_mul(2));
    Ok(())
}

// A register that turns its bit, in detection and in correction. A fault in the last cycle of the stimulus shows there or
// nowhere, and one past it nowhere. A cycle may have six digits.
#[test]
fn a_turning_bit_is_tried(rt: HostRuntime) -> Result<(), Fail> {
    let alloc = rt.alloc();
    let three = "-\n-\n-\n";
    let none = "cells 16\nright 32\nalarmed 0\ndecoded 0\nwrong 0\n";
    let middle = "cells 16\nright 29\nalarmed 3\ndecoded 0\nwrong 0\n";
    let cases = [
        (PARITY, three, "1", middle),
        (PARITY, three, "000001", middle),
        (
            PARITY,
            three,
            "2",
            "cells 16\nright 30\nalarmed 2\ndecoded 0\nwrong 0\n",
        ),
        (PARITY, three, "3", none),
        (PARITY, three, "999999", none),
        (PARITY, "", "0", none),
        (PARITY, "# no cycle\n\n", "1", none),
        (
            REPEATING,
            three,
            "1",
            "cells 54\nright 104\nalarmed 0\ndecoded 4\nwrong 0\n",
        ),
    ];
    for (settings, stimulus, cycle, front) in cases {
        let line = format!(in alloc; "campaign c n s {cycle}")?;
        let tried = perform(alloc, line.as_str(), settings, INVERTER, stimulus)?;
        assert_eq!(rt; tried.err.bytes(), b"".as_slice());
        assert_eq!(rt; tried.status, 0);
        let guarded = perform(alloc, "guard c n", settings, INVERTER, "")?;
        let guard = written(&guarded)?;
        let whole = format!(in alloc; "{front}{guard}")?;
        assert_eq!(rt; written(&tried)?, whole.as_str());
    }
    Ok(())
}

// The five lines are one put, and the guard's text is put in blocks: bytes of the put that fails stand behind those that
// were put before, and no further one is tried.
#[test]
fn puts_that_fail(rt: HostRuntime) -> Result<(), Fail> {
    let alloc = rt.alloc();
    let mut files = Three {
        settings: CORRECTING.as_bytes(),
        netlist: COUNTER.as_bytes(),
        stimulus: b"-\n-\n",
    };
    let line = "campaign c n s 1";
    let whole = run_line(alloc, line, &mut files, Vec::new(alloc))?;
    let guarded = run_line(alloc, "guard c n", &mut files, Vec::new(alloc))?;
    let lines = whole
        .out
        .bytes()
        .len()
        .saturating_sub(guarded.out.bytes().len());
    for (number, before) in [(1, 0), (2, lines)] {
        for taken in [0, 1, 5] {
            let ran = run_line(alloc, line, &mut files, vec![in alloc; (number, taken)]?)?;
            assert_eq!(rt; ran.status, 4);
            assert_eq!(rt;
                ran.out.bytes().len(),
                before.saturating_add(taken as usize)
            );
            assert!(rt; whole.out.bytes().starts_with(ran.out.bytes()));
            assert_eq!(rt; ran.err.bytes(), b"impeccable: cannot write\n".as_slice());
        }
    }
    let ran = run_line(alloc, line, &mut files, vec![in alloc; (99, 0)]?)?;
    assert_eq!(rt; ran.status, 0);
    assert_eq!(rt; ran.out.bytes(), whole.out.bytes());
    Ok(())
}
