//! The program on the sources of `examples/`. All of them have a meaning: they are flattened, and how many were is counted. Then a whole cipher:
//! the flat netlist of PRESENT-80 runs on two encryptions, and so does its guard; the latches of the guard are counted, and both simulations' texts are
//! printed. The lines that are stored for the flat netlist are those of Icarus Verilog on the cipher's Verilog, with 0 where Icarus shows an unknown bit of
//! the first cycle. Those of the guard are the same bits, behind them the check bits of each four of them, and four rails that are 0.
#![tactic(auto)]

ghost use Rattle.std.specs.Prelude.{None};

use imp_io::{Files, LoadFault, MemSink, RealFiles, RealSink};
use impeccable::run;
use std::alloc::{AllocError, Global};
use std::process::ExitCode;

// The statuses for a file that can't be read, for a text that can't be written, and for want of memory.
const READ_FAULT: u8 = 3;

const WRITE_FAULT: u8 = 4;

const NO_MEMORY: u8 = 5;

const SOURCES: [&str; 7] = [
    "counter.blif",
    "covers.blif",
    "empty.blif",
    "inverter.blif",
    "present80.blif",
    "shared.blif",
    "wires.blif",
];

// A netlist that was written and a stimulus in memory, and an empty script. Its counts stand at the end of their type.
#[derive(Clone, Copy, Drop)]
struct Simulated<'a> {
    netlist: &'a [u8],
    stimulus: &'a [u8],
}

impl<'a> Files for Simulated<'a> {
    ghost seen = { λ _. record { told = None; faults = 18446744073709551615; taken = 18446744073709551615 } };

    fn load(&mut self, alloc: Global, name: &str, most: usize) -> Result<Vec<u8>, LoadFault> {
        let bytes = match name {
            "netlist" => self.netlist,
            "stimulus" => self.stimulus,
            "script" => b"".as_slice(),
            _ => return Err(LoadFault::Failed),
        };
        if bytes.len() > most {
            return Err(LoadFault::TooLong);
        }
        match bytes.to_vec(alloc) {
            Ok(bytes) => Ok(bytes),
            Err(_) => Err(LoadFault::NoMemory),
        }
    }
}

fn spell(alloc: Global, line: &[&str]) -> Result<Vec<String>, AllocError> {
    let mut words = Vec::new(alloc);
    for word in line {
        words.push(String::from_str(alloc, word)?)?;
    }
    Ok(words)
}

// The status of a command on files of the system, and what it wrote.
fn written(rt: &HostRuntime, line: &[&str]) -> Result<(u8, MemSink), AllocError> {
    let alloc = rt.alloc();
    let mut files = RealFiles::new(rt);
    let mut err = RealSink::new(rt.stderr());
    let mut text = MemSink::new(alloc, Vec::new(alloc));
    let words = spell(alloc, line)?;
    let status = run(alloc, &words, &mut files, &mut text, &mut err).code();
    Ok((status, text))
}

// How many sources are flattened.
fn count_flattened(rt: &HostRuntime) -> Result<u32, AllocError> {
    let mut count: u32 = 0;
    for source in SOURCES {
        let (status, _) = written(rt, &["flat", source])?;
        if status == 0 {
            count = count.saturating_add(1);
        }
    }
    Ok(count)
}

// Runs a netlist on two encryptions, and answers the status of the command that ended last.
fn encrypt(rt: &HostRuntime, netlist: &[u8]) -> Result<u8, AllocError> {
    let alloc = rt.alloc();
    let mut files = RealFiles::new(rt);
    let stimulus = match files.load(alloc, "present80.stimulus", 16_777_216) {
        Ok(stimulus) => stimulus,
        Err(LoadFault::NoMemory) => return Ok(NO_MEMORY),
        Err(_) => return Ok(READ_FAULT),
    };
    let mut simulated = Simulated {
        netlist,
        stimulus: &stimulus,
    };
    let mut out = RealSink::new(rt.stdout());
    let mut err = RealSink::new(rt.stderr());
    let words = spell(alloc, &["sim", "netlist", "stimulus", "script"])?;
    Ok(run(alloc, &words, &mut simulated, &mut out, &mut err).code())
}

// How many lines of a text tell of a latch.
fn count_latches(text: &[u8]) -> usize {
    match std::str::from_utf8(text) {
        Ok(text) => text
            .lines()
            .filter(|line| line.starts_with(".latch "))
            .count(),
        Err(_) => 0,
    }
}

// Runs the flat netlist of the cipher and then its guard.
fn encrypt_twice(rt: &HostRuntime) -> Result<u8, AllocError> {
    let (status, flat) = written(rt, &["flat", "present80.blif"])?;
    if status != 0 {
        return Ok(status);
    }
    let status = encrypt(rt, flat.bytes())?;
    if status != 0 {
        return Ok(status);
    }
    let (status, guard) = written(rt, &["guard", "present80.toml", "present80.blif"])?;
    if status != 0 {
        return Ok(status);
    }
    let latches = count_latches(guard.bytes());
    if println!(rt; "latches {latches}").is_err() {
        return Ok(WRITE_FAULT);
    }
    encrypt(rt, guard.bytes())
}

fn main(rt: HostRuntime) -> ExitCode {
    let Ok(count) = count_flattened(&rt) else {
        return ExitCode::from(NO_MEMORY);
    };
    if println!(rt; "flattened {count}").is_err() {
        return ExitCode::from(WRITE_FAULT);
    }
    match encrypt_twice(&rt) {
        Ok(status) => ExitCode::from(status),
        Err(_) => ExitCode::from(NO_MEMORY),
    }
}
