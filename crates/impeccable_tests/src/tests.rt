ghost use Rattle.std.specs.Prelude.{None};

use imp_io::{Files, LoadFault, MemFiles, MemSink};
use impeccable::run;
use memory_runs::{held, run_line, spell};
use std::alloc::{AllocError, Global};
use std::test::Fail;

const USAGE: &str = "impeccable: usage: flat NETLIST, code SETTINGS, guard SETTINGS NETLIST, \
    sim NETLIST STIMULUS SCRIPT, audit NETLIST, campaign SETTINGS NETLIST STIMULUS CYCLE, demo N\n";

#[test]
fn words_of_no_command(rt: HostRuntime) -> Result<(), Fail> {
    let alloc = rt.alloc();
    for line in [
        "",
        "flat",
        "flat a b",
        "flatten e.blif",
        "guard a",
        "audit",
        "audit a b",
        "sim a b",
        "sim a b c d",
    ] {
        let mut files = held(alloc, "e.blif", Vec::new(alloc), Vec::new(alloc))?;
        let ran = run_line(alloc, line, &mut files, Vec::new(alloc))?;
        assert_eq!(rt; ran.status, 2);
        assert_eq!(rt; ran.out.bytes(), b"".as_slice());
        assert_eq!(rt; ran.err.bytes(), USAGE.as_bytes());
    }
    Ok(())
}

// The first load fails, and the same objects are used once more.
#[test]
fn a_load_that_fails_once(rt: HostRuntime) -> Result<(), Fail> {
    let alloc = rt.alloc();
    let text = b".model e\n.end\n".to_vec(alloc)?;
    let mut files = held(alloc, "e.blif", text, vec![in alloc; 1]?)?;
    let words = spell(alloc, "flat e.blif")?;
    let mut out = MemSink::new(alloc, Vec::new(alloc));
    let mut err = MemSink::new(alloc, Vec::new(alloc));
    let first = run(alloc, &words, &mut files, &mut out, &mut err);
    assert_eq!(rt; first.code(), 3);
    assert_eq!(rt; out.bytes(), b"".as_slice());
    assert_eq!(rt; err.bytes(), b"impeccable: cannot read e.blif\n".as_slice());
    let second = run(alloc, &words, &mut files, &mut out, &mut err);
    assert_eq!(rt; second.code(), 0);
    assert_eq!(rt;
        out.bytes(),
        b"# unknown inits 0\n.model e\n.end\n".as_slice()
    );
    Ok(())
}

#[test]
fn a_file_that_is_not_held(rt: HostRuntime) -> Result<(), Fail> {
    let alloc = rt.alloc();
    let mut files = held(alloc, "e.blif", Vec::new(alloc), Vec::new(alloc))?;
    let ran = run_line(alloc, "flat f\\\u{e9}", &mut files, Vec::new(alloc))?;
    assert_eq!(rt; ran.status, 3);
    assert_eq!(rt; ran.out.bytes(), b"".as_slice());
    assert_eq!(rt;
        ran.err.bytes(),
        b"impeccable: cannot read f\\x5c\\xc3\\xa9\n".as_slice()
    );
    Ok(())
}

// Files of which no load finds memory.
#[derive(Drop)]
struct Crowded;

impl Files for Crowded {
    ghost seen = { λ _. record { told = None; faults = 0; taken = 0 } };

    fn load(&mut self, _: Global, _: &str, _: usize) -> Result<Vec<u8>, LoadFault> {
        Err(LoadFault::NoMemory)
    }
}

#[test]
fn a_load_that_finds_no_memory(rt: HostRuntime) -> Result<(), Fail> {
    let alloc = rt.alloc();
    let words = spell(alloc, "flat e.blif")?;
    let mut out = MemSink::new(alloc, Vec::new(alloc));
    let mut err = MemSink::new(alloc, Vec::new(alloc));
    let outcome = run(alloc, &words, &mut Crowded, &mut out, &mut err);
    assert_eq!(rt; outcome.code(), 5);
    assert_eq!(rt; out.bytes(), b"".as_slice());
    assert_eq!(rt; err.bytes(), b"impeccable: no memory\n".as_slice());
    Ok(())
}

// A short text is one put: where that fails some bytes of it stand there, and no second put is tried.
#[test]
fn puts_that_fail(rt: HostRuntime) -> Result<(), Fail> {
    let alloc = rt.alloc();
    let cases = [
        (
            "flat m",
            ".model m\n.inputs a\n.outputs a\n.end\n",
            "# unknown inits 0\n.model m\n.inputs a\n.outputs a\n.end\n",
        ),
        (
            "code m",
            "mode = \"detect\"\nbound = 1\ncheck = [\"0111\", \"0111\"]\n",
            "code 6 2\ndistance 2\nword 11\ndetects 1\ncorrects 0\n",
        ),
        (
            "audit m",
            ".model h\n.inputs x\n.outputs y\n.latch n a 0\n.latch x b 0\n.names x n\n1 1\n.names a b y\n11 1\n.end\n",
            "independent 4\na latch a\nb latch b\nn latch a\ny output y\n",
        ),
    ];
    for (line, text, whole) in cases {
        let mut files = held(alloc, "m", text.as_bytes().to_vec(alloc)?, Vec::new(alloc))?;
        for taken in [0, 1, 5] {
            let ran = run_line(alloc, line, &mut files, vec![in alloc; (1, taken)]?)?;
            assert_eq!(rt; ran.status, 4);
            assert_eq!(rt; ran.out.bytes().len(), taken as usize);
            assert!(rt; whole.as_bytes().starts_with(ran.out.bytes()));
            assert_eq!(rt; ran.err.bytes(), b"impeccable: cannot write\n".as_slice());
            let ran = run_line(alloc, line, &mut files, vec![in alloc; (2, taken)]?)?;
            assert_eq!(rt; ran.status, 0);
            assert_eq!(rt; ran.out.bytes(), whole.as_bytes());
        }
    }
    Ok(())
}

// A file of the limit is read up to its first fault, and one that is a byte longer isn't looked at.
#[test]
fn files_at_the_limit(rt: HostRuntime) -> Result<(), Fail> {
    let alloc = rt.alloc();
    let cases = [
        (268_435_456, "impeccable: B5 line 1 no model\n"),
        (268_435_457, "impeccable: F1 file too long x.blif\n"),
    ];
    for (length, told) in cases {
        let mut text = vec![in alloc; b'x'; length]?;
        if let Some(end) = text.get_mut(1) {
            *end = b'\n';
        }
        let mut files = held(alloc, "x.blif", text, Vec::new(alloc))?;
        let ran = run_line(alloc, "flat x.blif", &mut files, Vec::new(alloc))?;
        assert_eq!(rt; ran.status, 1);
        assert_eq!(rt; ran.out.bytes(), b"".as_slice());
        assert_eq!(rt; ran.err.bytes(), told.as_bytes());
    }
    Ok(())
}

// The error output fails at its first put: the outcome stays, and a prefix of the line stands there.
#[test]
fn an_error_output_that_fails(rt: HostRuntime) -> Result<(), Fail> {
    let alloc = rt.alloc();
    let mut files = held(alloc, "e.blif", Vec::new(alloc), Vec::new(alloc))?;
    let words = Vec::new(alloc);
    let mut out = MemSink::new(alloc, Vec::new(alloc));
    let mut err = MemSink::new(alloc, vec![in alloc; (1, 7)]?);
    let outcome = run(alloc, &words, &mut files, &mut out, &mut err);
    assert_eq!(rt; outcome.code(), 2);
    assert_eq!(rt; err.bytes(), b"impecca".as_slice());
    Ok(())
}

// Settings and the report on their code.
#[test]
fn codes_are_reported(rt: HostRuntime) -> Result<(), Fail> {
    let alloc = rt.alloc();
    let cases = [
        (
            "mode = \"detect\"\nbound = 1\ncheck = [\"000\", \"011\"]\n",
            "code 5 2\ndistance 1\nword 10\ndetects 0\ncorrects 0\n",
        ),
        (
            "# For a guard that detects three faulty cells in one cycle.\nmode = \"detect\"\nbound = 3\ncheck = [\"0111\", \"1011\", \"1101\", \"1110\"]\n",
            "code 8 4\ndistance 4\nword 1000\ndetects 3\ncorrects 1\n",
        ),
        (
            "# For a guard that corrects one faulty cell in one cycle.\nmode = \"correct\"\nbound = 1\ncheck = [\"110\", \"101\", \"011\", \"111\"]\n",
            "code 7 4\ndistance 3\nword 1000\ndetects 2\ncorrects 1\n",
        ),
        (
            "mode = \"detect\"\nbound = 1\ncheck = [\"0111\", \"0111\"]\n",
            "code 6 2\ndistance 2\nword 11\ndetects 1\ncorrects 0\n",
        ),
        (
            "mode = \"correct\"\nbound = 2\ncheck = [\"111100\", \"001111\"]\n",
            "code 8 2\ndistance 5\nword 10\ndetects 4\ncorrects 2\n",
        ),
        (
            "mode = \"detect\"\nbound = 3\ncheck = [\"0111\", \"1011\", \"1101\", \"1110\"]\n\n[sbox.present]\ninputs = 4\noutputs = 4\nvalues = [12, 5, 6, 11, 9, 0, 10, 13, 3, 14, 15, 8, 4, 7, 1, 2]\n\n[linear.mix]\nrows = [\"110\", \"011\"]\n",
            "code 8 4\ndistance 4\nword 1000\ndetects 3\ncorrects 1\n",
        ),
    ];
    for (text, report) in cases {
        let mut files = held(
            alloc,
            "s.toml",
            text.as_bytes().to_vec(alloc)?,
            Vec::new(alloc),
        )?;
        let ran = run_line(alloc, "code s.toml", &mut files, Vec::new(alloc))?;
        assert_eq!(rt; ran.status, 0);
        assert_eq!(rt; ran.out.bytes(), report.as_bytes());
        assert_eq!(rt; ran.err.bytes(), b"".as_slice());
    }
    Ok(())
}

// What `code` tells of settings that it refuses.
#[test]
fn settings_are_refused(rt: HostRuntime) -> Result<(), Fail> {
    let alloc = rt.alloc();
    let cases = [
        ("mode =", "S1 settings are not TOML"),
        ("mode = \"detect\"\ncheck = [\"1\"]\n", "S2 missing bound"),
        (
            "mode = \"both\"\nbound = 1\ncheck = [\"1\"]\n",
            "S3 bad value mode",
        ),
        (
            "mode = \"detect\"\nbound = 0\ncheck = [\"1\"]\n",
            "S3 bad value bound",
        ),
        (
            "mode = \"detect\"\nbound = 1\ncheck = [\"1\"]\nspeed = 1\n",
            "S4 unknown key speed",
        ),
        (
            "mode = \"detect\"\nbound = 1\ncheck = [\"1\"]\nsbox = 3\n",
            "S3 bad value sbox",
        ),
        (
            "mode = \"detect\"\nbound = 1\ncheck = [\"1\"]\n[linear.\"a mix\"]\nrows = [\"110\", \"02\"]\n",
            "S3 bad value linear.a\\x20mix.rows",
        ),
        (
            "mode = \"detect\"\nbound = 1\ncheck = [\"1\", \"11\"]\n",
            "C1 bad check matrix",
        ),
    ];
    for (text, told) in cases {
        let mut files = held(
            alloc,
            "s.toml",
            text.as_bytes().to_vec(alloc)?,
            Vec::new(alloc),
        )?;
        let ran = run_line(alloc, "code s.toml", &mut files, Vec::new(alloc))?;
        assert_eq!(rt; ran.status, 1);
        assert_eq!(rt; ran.out.bytes(), b"".as_slice());
        let line = format!(in alloc; "impeccable: {told}\n")?;
        assert_eq!(rt; ran.err.bytes(), line.as_bytes());
    }
    Ok(())
}

// Settings that aren't held, and a byte more than settings may have.
#[test]
fn settings_are_loaded(rt: HostRuntime) -> Result<(), Fail> {
    let alloc = rt.alloc();
    let text = vec![in alloc; b'#'; 16_777_217]?;
    let mut files = held(alloc, "s.toml", text, Vec::new(alloc))?;
    let ran = run_line(alloc, "code s.toml", &mut files, Vec::new(alloc))?;
    assert_eq!(rt; ran.status, 1);
    assert_eq!(rt; ran.out.bytes(), b"".as_slice());
    assert_eq!(rt;
        ran.err.bytes(),
        b"impeccable: F1 file too long s.toml\n".as_slice()
    );
    let ran = run_line(alloc, "code missing.toml", &mut files, Vec::new(alloc))?;
    assert_eq!(rt; ran.status, 3);
    assert_eq!(rt; ran.out.bytes(), b"".as_slice());
    assert_eq!(rt;
        ran.err.bytes(),
        b"impeccable: cannot read missing.toml\n".as_slice()
    );
    Ok(())
}
