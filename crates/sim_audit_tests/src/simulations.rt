// The command `sim`.
ghost use Rattle.std.specs.Prelude.{None};

use imp_io::{Files, LoadFault};
use memory_runs::run_line;
use std::alloc::Global;
use std::test::Fail;

// The files of a simulation, which have the names n, s and t. Its counts stand at the end of their type.
#[derive(Clone, Copy, Drop)]
struct Three<'a> {
    netlist: &'a [u8],
    stimulus: &'a [u8],
    script: &'a [u8],
}

impl<'a> Files for Three<'a> {
    ghost seen = { λ _. record { told = None; faults = 18446744073709551615; taken = 18446744073709551615 } };

    fn load(&mut self, alloc: Global, name: &str, most: usize) -> Result<Vec<u8>, LoadFault> {
        let bytes = match name {
            "n" => self.netlist,
            "s" => self.stimulus,
            "t" => self.script,
            _ => return Err(LoadFault::Failed),
        };
        if bytes.len() > most {
            return Err(LoadFault::TooLong);
        }
        match bytes.to_vec(alloc) {
            Ok(bytes) => Ok(bytes),
            Err(_) => Err(LoadFault::NoMemory),
        }
    }
}

const COUNTER: &str =
    ".model counter\n.outputs a0 a1 a2 a3\n.latch n0 a0 0\n.latch n1 a1 0\n.latch n2 a2 0\n.latch n3 a3 0\n\
    .names a0 n0\n0 1\n.names a0 a1 n1\n10 1\n01 1\n.names a0 a1 c1\n11 1\n.names c1 a2 n2\n10 1\n01 1\n.names c1 a2 c2\n11 1\n\
    .names c2 a3 n3\n10 1\n01 1\n.end\n";

pub(crate) const INVERTER: &str = ".model inv\n.outputs q\n.latch n q 0\n.names q n\n0 1\n.end\n";

// Netlists, stimuli and scripts, with the lines of their runs.
#[test]
fn netlists_are_simulated(rt: HostRuntime) -> Result<(), Fail> {
    let alloc = rt.alloc();
    let covers =
        ".model c\n.inputs a b\n.outputs y z u v\n.names a b y\n00 0\n.names z\n.names $true\n1\n\
        .names $true u\n1 1\n.names a b v\n1- 1\n.end\n";
    let joined = ".model m\r\n.inputs a \\\n b\n.outputs y\n.names a b y # and\n11 1 # row";
    let clocked =
        "# Generated\n\n.model top\n.inputs clk en\n.outputs q[0]\n.names $false\n.names $true\n1\n.names $undef\n\
        .latch d$1 q[0] re clk 2\n.names en q[0] d$1\n10 1\n01 1\n.end\n";
    let inits =
        ".model i\n.inputs x\n.outputs a b c d\n.latch x a 2\n.latch x b 3\n.latch x c\n.latch x d 1\n.end\n";
    let cases = [
        (INVERTER, "-\n-\n-\n-\n", "", "0\n1\n0\n1\n"),
        (
            COUNTER,
            "-\n-\n-\n-\n-\n-\n",
            "",
            "0000\n1000\n0100\n1100\n0010\n1010\n",
        ),
        (covers, "00\n01\n10\n11\n", "", "0010\n1010\n1011\n1011\n"),
        (joined, "10\n11\n", "", "0\n1\n"),
        (clocked, "1\n1\n0\n", "", "0\n1\n0\n"),
        (inits, "0\n1\n0\n", "", "0001\n0000\n1111\n"),
        // A faulty latch shows the bit of the fault, and stores its D all the same.
        (INVERTER, "-\n-\n-\n-\n", "1 q 0\n", "0\n0\n1\n0\n"),
        (INVERTER, "-\n-\n-\n-\n", "0 n 0\n", "0\n0\n1\n0\n"),
        (
            COUNTER,
            "-\n-\n-\n-\n-\n-\n",
            "3 a0 0\n",
            "0000\n1000\n0100\n0100\n1100\n0010\n",
        ),
        (
            COUNTER,
            "-\n-\n-\n-\n-\n-\n",
            "5 a3 1\n1 c1 1\n",
            "0000\n1000\n0110\n1110\n0001\n1001\n",
        ),
        // The example of the README.
        (
            COUNTER,
            "# Six cycles of the counter, which has no data inputs.\n-\n-\n-\n-\n-\n-\n",
            "# In cycle 5, the last one, the latch a0 gives 0.\n5 a0 0\n",
            "0000\n1000\n0100\n1100\n0010\n0010\n",
        ),
        // Names with a backslash.
        (
            ".model h\n.inputs a\\b\n.outputs \\y\n.latch n \\q 1\n.names a\\b n\n0 1\n.names \\q \\y\n1 1\n.end\n",
            "0\n1\n0\n",
            "2 \\q 1\n",
            "1\n1\n1\n",
        ),
        // Faults past the stream have no effect.
        (INVERTER, "-\n-\n", "9 q 1\n999999 n 1\n", "0\n1\n"),
        // Comments, carriage returns and empty lines.
        (
            INVERTER,
            "# two\r\n-\r\n\r\n - # last",
            "# one\r\n\r\n1 q 0 # late\r\n",
            "0\n0\n",
        ),
        // No cycles, and no outputs.
        (INVERTER, "", "", ""),
        (INVERTER, "# none\n", "0 q 1\n", ""),
        (".model e\n.end\n", "-\n-\n", "", "-\n-\n"),
    ];
    for (netlist, stimulus, script, lines) in cases {
        let mut files = Three {
            netlist: netlist.as_bytes(),
            stimulus: stimulus.as_bytes(),
            script: script.as_bytes(),
        };
        let ran = run_line(alloc, "sim n s t", &mut files, Vec::new(alloc))?;
        assert_eq!(rt; ran.err.bytes(), b"".as_slice());
        assert_eq!(rt; ran.out.bytes(), lines.as_bytes());
        assert_eq!(rt; ran.status, 0);
    }
    Ok(())
}

// What `sim` tells of files that it refuses, and of loads and puts that fail: the first of them in the order of its steps.
#[test]
fn simulations_are_refused(rt: HostRuntime) -> Result<(), Fail> {
    let alloc = rt.alloc();
    let crossed = ".model r\n.inputs a\n.outputs y\n.names m y\n0 1\n.names a m\n0 1\n";
    let placed = ".model m\n.subckt s\n";
    let mixed = ".model c\n.inputs a b\n.outputs y\n.names a b y\n00 0\n11 1\n";
    let cases = [
        ("sim n s t", "", "-\n", "", "B5 line 0 no model"),
        ("sim n s t", mixed, "00\n", "", "B3 line 6 mixed cover"),
        ("sim n s t", crossed, "0\n", "", "M1 line 4 unordered"),
        (
            "sim n s t",
            ".model m\n.end\n.model k\n",
            "-\n",
            "",
            "M1 line 3 unordered",
        ),
        ("sim n s t", placed, "-\n", "", "M2 line 2 has subckt"),
        ("sim n s t", INVERTER, "0\n", "", "M3 line 1 bad stimulus"),
        ("sim n s t", crossed, "", "", "M1 line 4 unordered"),
        (
            "sim n s t",
            INVERTER,
            "-\n- -\n",
            "",
            "M3 line 2 bad stimulus",
        ),
        (
            "sim n s t",
            INVERTER,
            "-\n",
            "1 q\n",
            "M4 line 1 bad script",
        ),
        (
            "sim n s t",
            INVERTER,
            "-\n",
            "1000000 q 1\n",
            "M4 line 1 bad script",
        ),
        (
            "sim n s t",
            INVERTER,
            "-\n",
            "1 q 0\n1 q 1\n",
            "M4 line 2 bad script",
        ),
        (
            "sim n s t",
            INVERTER,
            "-\n",
            "# none\n0 nosuch 1\n",
            "M5 line 2 no such cell",
        ),
        // Each file is looked at only where those before it are taken.
        ("sim n none none", crossed, "", "", "M1 line 4 unordered"),
        (
            "sim n s none",
            INVERTER,
            "0\n",
            "",
            "M3 line 1 bad stimulus",
        ),
        (
            "sim n s t",
            INVERTER,
            "0\n",
            "1 q\n",
            "M3 line 1 bad stimulus",
        ),
    ];
    for (line, netlist, stimulus, script, told) in cases {
        let mut files = Three {
            netlist: netlist.as_bytes(),
            stimulus: stimulus.as_bytes(),
            script: script.as_bytes(),
        };
        let ran = run_line(alloc, line, &mut files, Vec::new(alloc))?;
        let text = format!(in alloc; "impeccable: {told}\n")?;
        assert_eq!(rt; ran.err.bytes(), text.as_bytes());
        assert_eq!(rt; ran.out.bytes(), b"".as_slice());
        assert_eq!(rt; ran.status, 1);
    }
    for line in ["sim none s t", "sim n none t", "sim n s none"] {
        let mut files = Three {
            netlist: INVERTER.as_bytes(),
            stimulus: b"-\n".as_slice(),
            script: b"".as_slice(),
        };
        let ran = run_line(alloc, line, &mut files, Vec::new(alloc))?;
        assert_eq!(rt;
            ran.err.bytes(),
            b"impeccable: cannot read none\n".as_slice()
        );
        assert_eq!(rt; ran.out.bytes(), b"".as_slice());
        assert_eq!(rt; ran.status, 3);
    }
    let mut files = Three {
        netlist: INVERTER.as_bytes(),
        stimulus: b"-\n-\n".as_slice(),
        script: b"".as_slice(),
    };
    let fails = vec![in alloc; (1, 3)]?;
    let ran = run_line(alloc, "sim n s t", &mut files, fails)?;
    assert_eq!(rt; ran.out.bytes(), b"0\n1".as_slice());
    assert_eq!(rt; ran.status, 4);
    Ok(())
}

// The line at fault of each file, with an earlier and a later fault beside it.
#[test]
fn lines_of_simulations_are_told(rt: HostRuntime) -> Result<(), Fail> {
    let alloc = rt.alloc();
    let two = ".model w\n.inputs a b\n.outputs y\n.names a b y\n11 1\n.end\n";
    let cases = [
        (
            ".model m\n.inputs a\n.outputs y\n.subckt s\n.names b y\n1 1\n.end\n",
            "0\n",
            "",
            "M2 line 4 has subckt",
        ),
        (
            ".model m\n.inputs a\n.outputs y\n.names b y\n1 1\n.subckt s\n.end\n",
            "0\n",
            "",
            "M1 line 4 unordered",
        ),
        (
            ".model m\n.inputs c\n.outputs q\n.latch q q re c 0\n.latch q p fe c 0\n.end\n",
            "-\n",
            "",
            "M1 line 5 unordered",
        ),
        (two, "1\n", "", "M3 line 1 bad stimulus"),
        (two, "11\n111\n", "", "M3 line 2 bad stimulus"),
        (two, "12\n", "", "M3 line 1 bad stimulus"),
        (two, "-\n", "", "M3 line 1 bad stimulus"),
        (two, "11\n", "0 a 1\n", "M5 line 1 no such cell"),
        (INVERTER, "-\n", "1 q 0 0\n", "M4 line 1 bad script"),
    ];
    for (netlist, stimulus, script, told) in cases {
        let mut files = Three {
            netlist: netlist.as_bytes(),
            stimulus: stimulus.as_bytes(),
            script: script.as_bytes(),
        };
        let ran = run_line(alloc, "sim n s t", &mut files, Vec::new(alloc))?;
        let text = format!(in alloc; "impeccable: {told}\n")?;
        assert_eq!(rt; ran.err.bytes(), text.as_bytes());
        assert_eq!(rt; ran.out.bytes(), b"".as_slice());
        assert_eq!(rt; ran.status, 1);
    }
    Ok(())
}

// Seventeen cells, all of them faulty in cycle 0.
#[test]
fn seventeen_faults_in_a_cycle(rt: HostRuntime) -> Result<(), Fail> {
    let alloc = rt.alloc();
    let mut netlist = b".model m\n".to_vec(alloc)?;
    let mut script = Vec::new(alloc);
    for letter in b'a'..b'r' {
        netlist.extend_from_slice(&[b'.', b'n', b'a', b'm', b'e', b's', b' ', letter, b'\n'])?;
        script.extend_from_slice(&[b'0', b' ', letter, b' ', b'1', b'\n'])?;
    }
    let mut files = Three {
        netlist: &netlist,
        stimulus: b"-\n".as_slice(),
        script: &script,
    };
    let ran = run_line(alloc, "sim n s t", &mut files, Vec::new(alloc))?;
    assert_eq!(rt;
        ran.err.bytes(),
        b"impeccable: M6 line 17 more than sixteen\n".as_slice()
    );
    assert_eq!(rt; ran.out.bytes(), b"".as_slice());
    assert_eq!(rt; ran.status, 1);
    Ok(())
}
