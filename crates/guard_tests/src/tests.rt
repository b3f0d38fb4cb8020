ghost use Rattle.std.specs.Prelude.{None};

use imp_io::{Files, LoadFault};
use memory_runs::{Ran, run_line};
use std::alloc::{AllocError, Global};
use std::test::Fail;

// Files of the names c, n, s and t. Their counts stand at the end of their type.
#[derive(Clone, Copy, Drop)]
struct Four<'a> {
    settings: &'a [u8],
    netlist: &'a [u8],
    stimulus: &'a [u8],
    script: &'a [u8],
}

impl<'a> Files for Four<'a> {
    ghost seen = { λ _. record { told = None; faults = 18446744073709551615; taken = 18446744073709551615 } };

    fn load(&mut self, alloc: Global, name: &str, most: usize) -> Result<Vec<u8>, LoadFault> {
        let bytes = match name {
            "c" => self.settings,
            "n" => self.netlist,
            "s" => self.stimulus,
            "t" => self.script,
            _ => return Err(LoadFault::Failed),
        };
        if bytes.len() > most {
            return Err(LoadFault::TooLong);
        }
        match bytes.to_vec(alloc) {
            Ok(bytes) => Ok(bytes),
            Err(_) => Err(LoadFault::NoMemory),
        }
    }
}

// `guard` over settings and a netlist.
fn guard(alloc: Global, settings: &str, netlist: &str) -> Result<Ran, AllocError> {
    let mut files = Four {
        settings: settings.as_bytes(),
        netlist: netlist.as_bytes(),
        stimulus: b"",
        script: b"",
    };
    run_line(alloc, "guard c n", &mut files, Vec::new(alloc))
}

// `sim` over a netlist, a stimulus and a script.
fn simulate(
    alloc: Global,
    netlist: &[u8],
    stimulus: &str,
    script: &str,
) -> Result<Ran, AllocError> {
    let mut files = Four {
        settings: b"",
        netlist,
        stimulus: stimulus.as_bytes(),
        script: script.as_bytes(),
    };
    run_line(alloc, "sim n s t", &mut files, Vec::new(alloc))
}

const PARITY: &str = "mode = \"detect\"\nbound = 1\ncheck = [\"1\"]\n";

const HAMMING: &str =
    "mode = \"detect\"\nbound = 3\ncheck = [\"0111\", \"1011\", \"1101\", \"1110\"]\n\
    [sbox.present]\ninputs = 4\noutputs = 4\nvalues = [12, 5, 6, 11, 9, 0, 10, 13, 3, 14, 15, 8, 4, 7, 1, 2]\n";

const INVERTER: &str = ".model inv\n.outputs q\n.latch n q 0\n.names q n\n0 1\n.end\n";

// What `guard` tells of settings that it refuses, whether or not the netlist is held.
#[test]
fn settings_are_refused_first(rt: HostRuntime) -> Result<(), Fail> {
    let alloc = rt.alloc();
    let cases = [
        ("mode =", "S1 settings are not TOML"),
        ("mode = \"detect\"\ncheck = [\"1\"]\n", "S2 missing bound"),
        (
            "mode = \"correct\"\nbound = 2\ncheck = [\"0111\", \"1011\", \"1101\", \"1110\"]\n",
            "S5 distance 4 below 5",
        ),
        (
            "mode = \"correct\"\nbound = 1\ncheck = [\"1\"]\n",
            "S5 distance 2 below 3",
        ),
        (
            "mode = \"correct\"\nbound = 16\ncheck = [\"011\", \"101\", \"110\", \"111\"]\n",
            "S5 distance 3 below 33",
        ),
        (
            "mode = \"detect\"\nbound = 2\ncheck = [\"1\", \"1\", \"1\", \"1\"]\n",
            "S5 distance 2 below 3",
        ),
        (
            "mode = \"detect\"\nbound = 2\ncheck = [\"0111\", \"0111\"]\n",
            "S5 distance 2 below 3",
        ),
        (
            "mode = \"detect\"\nbound = 1\ncheck = [\"000\", \"011\"]\n",
            "S5 distance 1 below 2",
        ),
        (PARITY, "cannot read m"),
    ];
    for (settings, told) in cases {
        let mut files = Four {
            settings: settings.as_bytes(),
            netlist: INVERTER.as_bytes(),
            stimulus: b"",
            script: b"",
        };
        let ran = run_line(alloc, "guard c m", &mut files, Vec::new(alloc))?;
        assert_ne!(rt; ran.status, 0);
        assert_eq!(rt; ran.out.bytes(), b"".as_slice());
        let line = format!(in alloc; "impeccable: {told}\n")?;
        assert_eq!(rt; ran.err.bytes(), line.as_bytes());
    }
    Ok(())
}

// What `guard` tells of words that don't fit: names that are no nets stand before names that come twice, and these before
// nets that are left out.
#[test]
fn words_are_refused(rt: HostRuntime) -> Result<(), Fail> {
    let alloc = rt.alloc();
    let cases = [
        ("state_words = [[\"zz\"]]", "L1 no such net zz"),
        ("state_words = [[\"q\"], [\"q\"]]", "L2 in two words q"),
        ("state_words = []", "L3 in no word q"),
        ("output_words = [[\"n\"]]", "L1 no such net n"),
        ("output_words = []", "L3 in no word q"),
        (
            "state_words = [[\"q\"], [\"q\"]]\noutput_words = [[\"zz\"]]",
            "L1 no such net zz",
        ),
        (
            "state_words = []\noutput_words = [[\"q\"], [\"q\"]]",
            "L2 in two words q",
        ),
    ];
    for (words, told) in cases {
        let settings = format!(in alloc; "{PARITY}{words}\n")?;
        let ran = guard(alloc, settings.as_str(), INVERTER)?;
        assert_eq!(rt; ran.status, 1);
        assert_eq!(rt; ran.out.bytes(), b"".as_slice());
        let line = format!(in alloc; "impeccable: {told}\n")?;
        assert_eq!(rt; ran.err.bytes(), line.as_bytes());
    }
    Ok(())
}

// What `guard` tells of netlists without a meaning, also in front of words that don't fit.
#[test]
fn netlists_are_refused(rt: HostRuntime) -> Result<(), Fail> {
    let alloc = rt.alloc();
    let settings = format!(in alloc; "state_words = [[\"zz\"]]\n{HAMMING}")?;
    let cases = [
        ("", "B5 line 0 no model"),
        (".model m\n.outputs y\n", "E7 undriven y"),
        (
            ".model l\n.outputs p\n.names q p\n1 1\n.names p q\n1 1\n",
            "E9 loop p q",
        ),
        (
            ".model b\n.inputs a b c\n.outputs y0 y1 y2 y3\n\
            .subckt present o3=y3 i2=c i0=a o0=y0 i1=b o1=y1 o2=y2\n.end\n",
            "E3 bad port present i3",
        ),
        (INVERTER, "L1 no such net zz"),
    ];
    for (netlist, told) in cases {
        let ran = guard(alloc, settings.as_str(), netlist)?;
        assert_eq!(rt; ran.status, 1);
        assert_eq!(rt; ran.out.bytes(), b"".as_slice());
        let line = format!(in alloc; "impeccable: {told}\n")?;
        assert_eq!(rt; ran.err.bytes(), line.as_bytes());
    }
    Ok(())
}

// The guard of a register that turns its bit has a plain size of 38. Faults in the range of its bound leave it right or
// raise an alarm, and two faults need not.
#[test]
fn a_turning_bit_is_guarded(rt: HostRuntime) -> Result<(), Fail> {
    let alloc = rt.alloc();
    let ran = guard(alloc, PARITY, INVERTER)?;
    assert_eq!(rt; ran.err.bytes(), b"".as_slice());
    assert_eq!(rt; ran.status, 0);
    let front =
        "# unknown inits 0\n.model inv\n.outputs q\n.outputs guard:o0:c0\n.outputs guard:alarm0\n.outputs guard:alarm1\n\
        .latch guard:d0:0 guard:s0:0 0\n.latch guard:d0:1 guard:s0:1 0\n.names";
    assert!(rt; ran.out.bytes().starts_with(front.as_bytes()));
    assert!(rt; ran.out.bytes().ends_with(b"\n.end\n"));
    let cases = [
        ("", "0000\n1100\n"),
        ("1 guard:alarm0 1\n", "0000\n1110\n"),
        ("1 guard:s0:0 0\n", "0000\n0011\n"),
        ("9 guard:s0:0 1\n", "0000\n1100\n"),
        ("1 guard:s0:0 0\n1 guard:s0:1 0\n", "0000\n0000\n"),
    ];
    for (script, lines) in cases {
        let run = simulate(alloc, ran.out.bytes(), "-\n-\n", script)?;
        assert_eq!(rt; run.err.bytes(), b"".as_slice());
        assert_eq!(rt; run.out.bytes(), lines.as_bytes());
    }
    Ok(())
}

// Whole fronts of guards: a register that is moved, with words of four and of one, and a netlist with a clock.
#[test]
fn latches_are_words(rt: HostRuntime) -> Result<(), Fail> {
    let alloc = rt.alloc();
    let shift =
        ".model shift\n.inputs x\n.outputs e\n.latch x a 1\n.latch a b 0\n.latch b c 0\n.latch c d 0\n.latch d e 1\n.end\n";
    let shifted =
        "# unknown inits 0\n.model shift\n.inputs x\n.outputs e\n.outputs guard:o0:c0\n.outputs guard:o0:c1\n\
        .outputs guard:o0:c2\n.outputs guard:o0:c3\n.outputs guard:alarm0\n.outputs guard:alarm1\n\
        .outputs guard:alarm2\n.outputs guard:alarm3\n.latch guard:d0:0 guard:s0:0 1\n.latch guard:d0:1 guard:s0:1 0\n\
        .latch guard:d0:2 guard:s0:2 0\n.latch guard:d0:3 guard:s0:3 0\n.latch guard:d0:4 guard:s0:4 0\n\
        .latch guard:d0:5 guard:s0:5 1\n.latch guard:d0:6 guard:s0:6 1\n.latch guard:d0:7 guard:s0:7 1\n\
        .latch guard:d1:0 guard:s1:0 1\n.latch guard:d1:1 guard:s1:1 0\n.latch guard:d1:2 guard:s1:2 1\n\
        .latch guard:d1:3 guard:s1:3 1\n.latch guard:d1:4 guard:s1:4 1\n.names";
    let clocked =
        "# Generated\n\n.model top\n.inputs clk en\n.outputs q[0]\n.names $false\n.names $true\n1\n.names $undef\n\
        .latch d$1 q[0] re clk 2\n.names en q[0] d$1\n10 1\n01 1\n.end\n";
    let timed =
        "# unknown inits 1\n.model top\n.inputs clk\n.inputs en\n.outputs q[0]\n.outputs guard:o0:c0\n\
        .outputs guard:alarm0\n.outputs guard:alarm1\n.latch guard:d0:0 guard:s0:0 re clk 0\n\
        .latch guard:d0:1 guard:s0:1 re clk 0\n.names";
    let cases = [
        (HAMMING, shift, shifted, "0\n0\n", "101110000\n000000000\n"),
        (PARITY, clocked, timed, "1\n1\n0\n", "0000\n1100\n0000\n"),
    ];
    for (settings, netlist, front, stimulus, lines) in cases {
        let ran = guard(alloc, settings, netlist)?;
        assert_eq!(rt; ran.status, 0);
        assert!(rt; ran.out.bytes().starts_with(front.as_bytes()));
        let run = simulate(alloc, ran.out.bytes(), stimulus, "")?;
        assert_eq!(rt; run.out.bytes(), lines.as_bytes());
    }
    Ok(())
}

// A guard without latches, by a table of the settings. Each of its cells serves one bit.
#[test]
fn tables_are_guarded(rt: HostRuntime) -> Result<(), Fail> {
    let alloc = rt.alloc();
    let netlist = ".model b\n.inputs a b c d\n.outputs y0 y1 y2 y3\n\
        .subckt present o3=y3 i2=c i0=a o0=y0 i1=b i3=d o1=y1 o2=y2\n.end\n";
    let ran = guard(alloc, HAMMING, netlist)?;
    assert_eq!(rt; ran.err.bytes(), b"".as_slice());
    assert_eq!(rt; ran.status, 0);
    let run = simulate(alloc, ran.out.bytes(), "0000\n1000\n", "")?;
    assert_eq!(rt; run.out.bytes(), b"001100110000\n101010100000\n".as_slice());
    let mut files = Four {
        settings: b"",
        netlist: ran.out.bytes(),
        stimulus: b"",
        script: b"",
    };
    let told = run_line(alloc, "audit n", &mut files, Vec::new(alloc))?;
    assert_eq!(rt; told.status, 0);
    assert!(rt; told.out.bytes().starts_with(b"independent "));
    Ok(())
}

// A register in correction. One cell that is faulty in one cycle is within the bound: a stored bit that is wrong changes
// nothing, and the fault of an output's own cell shows in that output and cycle alone.
#[test]
fn a_turning_bit_is_corrected(rt: HostRuntime) -> Result<(), Fail> {
    let alloc = rt.alloc();
    let settings =
        "mode = \"correct\"\nbound = 1\ncheck = [\"0111\", \"1011\", \"1101\", \"1110\"]\n";
    let ran = guard(alloc, settings, INVERTER)?;
    assert_eq!(rt; ran.err.bytes(), b"".as_slice());
    assert_eq!(rt; ran.status, 0);
    let front =
        "# unknown inits 0\n.model inv\n.outputs q\n.outputs guard:o0:c0\n.outputs guard:o0:c1\n.outputs guard:o0:c2\n\
        .outputs guard:o0:c3\n.latch guard:d0:0 guard:s0:0 0\n.latch guard:d0:1 guard:s0:1 0\n\
        .latch guard:d0:2 guard:s0:2 0\n.latch guard:d0:3 guard:s0:3 0\n.latch guard:d0:4 guard:s0:4 0\n.names";
    assert!(rt; ran.out.bytes().starts_with(front.as_bytes()));
    let cases = [
        ("", "00000\n10111\n00000\n"),
        ("1 guard:s0:0 0\n", "00000\n10111\n00000\n"),
        ("1 guard:d0:0 1\n", "00000\n10111\n00000\n"),
        ("0 guard:s0:3 1\n", "00000\n10111\n00000\n"),
        ("1 guard:o0:c1 0\n", "00000\n10011\n00000\n"),
        ("1 q 0\n", "00000\n00111\n00000\n"),
    ];
    for (script, lines) in cases {
        let run = simulate(alloc, ran.out.bytes(), "-\n-\n-\n", script)?;
        assert_eq!(rt; run.err.bytes(), b"".as_slice());
        assert_eq!(rt; run.out.bytes(), lines.as_bytes());
    }
    Ok(())
}

// The same register with a code that corrects two places, and two faulty cells in a cycle: two stored bits, two outputs, or
// a stored bit and the cell of another one.
#[test]
fn two_wrong_bits_are_corrected(rt: HostRuntime) -> Result<(), Fail> {
    let alloc = rt.alloc();
    let settings = "mode = \"correct\"\nbound = 2\ncheck = [\"1111\"]\n";
    let ran = guard(alloc, settings, INVERTER)?;
    assert_eq!(rt; ran.status, 0);
    let cases = [
        ("", "00000\n11111\n00000\n"),
        ("1 guard:s0:0 0\n1 guard:s0:3 0\n", "00000\n11111\n00000\n"),
        ("1 guard:s0:4 0\n1 guard:d0:1 1\n", "00000\n11111\n00000\n"),
        ("1 q 0\n1 guard:o0:c2 0\n", "00000\n01101\n00000\n"),
    ];
    for (script, lines) in cases {
        let run = simulate(alloc, ran.out.bytes(), "-\n-\n-\n", script)?;
        assert_eq!(rt; run.out.bytes(), lines.as_bytes());
    }
    Ok(())
}

// A counter in correction, six cycles: a stored bit that is wrong changes nothing, and an output that is wrong differs from
// its word in that place alone.
#[test]
fn a_counter_is_corrected(rt: HostRuntime) -> Result<(), Fail> {
    let alloc = rt.alloc();
    let settings = "mode = \"correct\"\nbound = 1\ncheck = [\"011\", \"101\", \"110\", \"111\"]\n";
    let counter =
        ".model counter\n.outputs a0 a1 a2 a3\n.latch n0 a0 0\n.latch n1 a1 0\n.latch n2 a2 0\n.latch n3 a3 0\n\
        .names a0 n0\n0 1\n.names a0 a1 n1\n10 1\n01 1\n.names a0 a1 c1\n11 1\n.names c1 a2 n2\n10 1\n01 1\n\
        .names c1 a2 c2\n11 1\n.names c2 a3 n3\n10 1\n01 1\n.end\n";
    let ran = guard(alloc, settings, counter)?;
    assert_eq!(rt; ran.err.bytes(), b"".as_slice());
    assert_eq!(rt; ran.status, 0);
    let healthy = "0000000\n1000011\n0100101\n1100110\n0010110\n1010101\n";
    let one_wrong = "0000000\n1000011\n0100101\n0100110\n0010110\n1010101\n";
    let cases = [
        ("", healthy),
        ("3 guard:s0:0 0\n", healthy),
        ("3 a0 0\n", one_wrong),
    ];
    for (script, lines) in cases {
        let run = simulate(alloc, ran.out.bytes(), "-\n-\n-\n-\n-\n-\n", script)?;
        assert_eq!(rt; run.err.bytes(), b"".as_slice());
        assert_eq!(rt; run.out.bytes(), lines.as_bytes());
    }
    Ok(())
}

// An output of so many rows, and one that is a copy.
fn wide_cover(alloc: Global, rows: u32) -> Result<String, AllocError> {
    let mut netlist = String::from_str(alloc, ".model big\n.inputs a\n.outputs y z\n.names a y\n")?;
    for _ in 0..rows {
        netlist.push_str("1 1\n")?;
    }
    netlist.push_str(".names a z\n1 1\n.end\n")?;
    Ok(netlist)
}

// The plain size of the guard is 1,000,000 with 124,995 rows, and with one row more it is 1,000,008.
#[test]
fn a_large_guard_is_refused(rt: HostRuntime) -> Result<(), Fail> {
    let alloc = rt.alloc();
    let largest = wide_cover(alloc, 124_995)?;
    let made = guard(alloc, PARITY, largest.as_str())?;
    assert_eq!(rt; made.err.bytes(), b"".as_slice());
    assert_eq!(rt; made.status, 0);
    assert!(rt; made.out.bytes().ends_with(b"\n.end\n"));
    let larger = wide_cover(alloc, 124_996)?;
    let ran = guard(alloc, PARITY, larger.as_str())?;
    assert_eq!(rt; ran.status, 1);
    assert_eq!(rt; ran.out.bytes(), b"".as_slice());
    assert_eq!(rt;
        ran.err.bytes(),
        b"impeccable: G1 guard too large\n".as_slice()
    );
    Ok(())
}

// The first put fails: some bytes of a guard's text stand there.
#[test]
fn a_put_that_fails(rt: HostRuntime) -> Result<(), Fail> {
    let alloc = rt.alloc();
    let mut files = Four {
        settings: PARITY.as_bytes(),
        netlist: INVERTER.as_bytes(),
        stimulus: b"",
        script: b"",
    };
    let ran = run_line(alloc, "guard c n", &mut files, vec![in alloc; (1, 5)]?)?;
    assert_eq!(rt; ran.status, 4);
    assert_eq!(rt; ran.out.bytes(), b"# unk".as_slice());
    assert_eq!(rt; ran.err.bytes(), b"impeccable: cannot write\n".as_slice());
    Ok(())
}
