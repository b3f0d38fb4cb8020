// Words of no command, and files that `campaign` refuses or misses.

use crate::files::{INVERTER, PARITY, Three, perform};
use imp_io::MemSink;
use impeccable::{Outcome, Refusal, run};
use memory_runs::{run_line, spell};
use std::alloc::{AllocError, Global};
use std::test::Fail;

const USAGE: &str = "impeccable: usage: flat NETLIST, code SETTINGS, guard SETTINGS NETLIST, \
    sim NETLIST STIMULUS SCRIPT, audit NETLIST, campaign SETTINGS NETLIST STIMULUS CYCLE, demo N\n";

// A size is a number from 1 to 64 in at most two digits, and a cycle one in at most six.
#[test]
fn words_of_no_command(rt: HostRuntime) -> Result<(), Fail> {
    let alloc = rt.alloc();
    for line in [
        "demo",
        "demo 0",
        "demo 00",
        "demo 65",
        "demo 001",
        "demo x",
        "demo +1",
        "demo 1 2",
        "campaign",
        "campaign c n s",
        "campaign c n s x",
        "campaign c n s -1",
        "campaign c n s 0000001",
        "campaign c n s 1000000",
        "campaign c n s 1 2",
    ] {
        let ran = perform(alloc, line, PARITY, INVERTER, "-\n")?;
        assert_eq!(rt; ran.status, 2);
        assert_eq!(rt; ran.out.bytes(), b"".as_slice());
        assert_eq!(rt; ran.err.bytes(), USAGE.as_bytes());
    }
    Ok(())
}

// An output of so many rows, and one that is a copy.
fn wide_cover(alloc: Global, rows: u32) -> Result<String, AllocError> {
    let mut netlist = String::from_str(alloc, ".model big\n.inputs a\n.outputs y z\n.names a y\n")?;
    for _ in 0..rows {
        netlist.push_str("1 1\n")?;
    }
    netlist.push_str(".names a z\n1 1\n.end\n")?;
    Ok(netlist)
}

// What `guard` refuses `campaign` refuses in the same words, whether the stimulus is a bad one or isn't held.
#[test]
fn guards_are_refused_first(rt: HostRuntime) -> Result<(), Fail> {
    let alloc = rt.alloc();
    let large = wide_cover(alloc, 124_996)?;
    let two = format!(in alloc; "{PARITY}state_words = [[\"q\"], [\"q\"]]\n")?;
    let cases = [
        ("mode =", INVERTER, "S1 settings are not TOML"),
        (
            "mode = \"detect\"\nbound = 1\ncheck = [\"1\", \"11\"]\n",
            INVERTER,
            "C1 bad check matrix",
        ),
        (
            "mode = \"correct\"\nbound = 1\ncheck = [\"1\"]\n",
            INVERTER,
            "S5 distance 2 below 3",
        ),
        (PARITY, "", "B5 line 0 no model"),
        (PARITY, ".model m\n.outputs y\n", "E7 undriven y"),
        (two.as_str(), INVERTER, "L2 in two words q"),
        (PARITY, large.as_str(), "G1 guard too large"),
    ];
    for (settings, netlist, told) in cases {
        let message = format!(in alloc; "impeccable: {told}\n")?;
        for line in ["campaign c n s 0", "campaign c n x 0"] {
            let ran = perform(alloc, line, settings, netlist, "2\n")?;
            assert_eq!(rt; ran.status, 1);
            assert_eq!(rt; ran.out.bytes(), b"".as_slice());
            assert_eq!(rt; ran.err.bytes(), message.as_bytes());
        }
    }
    Ok(())
}

// Files that aren't held: the first of them in the order of the words is told. A fault of an earlier one stands before it.
#[test]
fn files_that_are_not_held(rt: HostRuntime) -> Result<(), Fail> {
    let alloc = rt.alloc();
    let cases = [
        ("campaign x y z 1", "cannot read x"),
        ("campaign c y z 1", "cannot read y"),
        ("campaign c n z 1", "cannot read z"),
    ];
    for (line, told) in cases {
        let ran = perform(alloc, line, PARITY, INVERTER, "-\n")?;
        assert_eq!(rt; ran.status, 3);
        assert_eq!(rt; ran.out.bytes(), b"".as_slice());
        let message = format!(in alloc; "impeccable: {told}\n")?;
        assert_eq!(rt; ran.err.bytes(), message.as_bytes());
    }
    Ok(())
}

// A stimulus with a bad line, also behind the cycle of the faults. What stood in the output stays there, and nothing is put
// behind it.
#[test]
fn stimuli_are_refused(rt: HostRuntime) -> Result<(), Fail> {
    let alloc = rt.alloc();
    let words = spell(alloc, "campaign c n s 0")?;
    let mut out = MemSink::new(alloc, Vec::new(alloc));
    for (stimulus, number) in [("0\n", 1), ("-\n-\n- -\n", 3), ("# one\n\n-\n1\n-\n0\n", 4)] {
        let mut err = MemSink::new(alloc, Vec::new(alloc));
        let mut files = Three {
            settings: PARITY.as_bytes(),
            netlist: INVERTER.as_bytes(),
            stimulus: b"-\n",
        };
        let first = run(alloc, &words, &mut files, &mut out, &mut err);
        assert_eq!(rt; first.code(), 0);
        let before = out.bytes().to_vec(alloc)?;
        files.stimulus = stimulus.as_bytes();
        let second = run(alloc, &words, &mut files, &mut out, &mut err);
        assert!(rt;
            matches!(&second, Outcome::Refused(Refusal::BadStimulus(line)) if *line == number)
        );
        assert_eq!(rt; out.bytes(), before.as_slice());
        let line = format!(in alloc; "impeccable: M3 line {number} bad stimulus\n")?;
        assert_eq!(rt; err.bytes(), line.as_bytes());
    }
    Ok(())
}

// A comment may fill the 16 MiB that a stimulus may have, and with a byte more it isn't looked at.
#[test]
fn stimuli_at_the_limit(rt: HostRuntime) -> Result<(), Fail> {
    let alloc = rt.alloc();
    for (length, status, told) in [
        (16_777_216, 0, ""),
        (16_777_217, 1, "impeccable: F1 file too long s\n"),
    ] {
        let stimulus = vec![in alloc; b'#'; length]?;
        let mut files = Three {
            settings: PARITY.as_bytes(),
            netlist: INVERTER.as_bytes(),
            stimulus: &stimulus,
        };
        let ran = run_line(alloc, "campaign c n s 0", &mut files, Vec::new(alloc))?;
        assert_eq!(rt; ran.status, status);
        assert_eq!(rt; ran.err.bytes(), told.as_bytes());
        assert_eq!(rt; ran.out.bytes().is_empty(), status != 0);
    }
    Ok(())
}
