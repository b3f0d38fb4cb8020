// Files in memory, and what the tests read from printed texts.
ghost use Rattle.std.specs.Prelude.{None};

use imp_io::{Files, LoadFault};
use memory_runs::{Ran, run_line};
use std::alloc::{AllocError, Global};
use std::test::Fail;

pub(crate) const PARITY: &str = "mode = \"detect\"\nbound = 1\ncheck = [\"1\"]\n";

pub(crate) const INVERTER: &str = ".model inv\n.outputs q\n.latch n q 0\n.names q n\n0 1\n.end\n";

// Files of the names c, n and s. Their counts stand at the end of their type.
#[derive(Clone, Copy, Drop)]
pub(crate) struct Three<'a> {
    pub(crate) settings: &'a [u8],
    pub(crate) netlist: &'a [u8],
    pub(crate) stimulus: &'a [u8],
}

impl<'a> Files for Three<'a> {
    ghost seen = { λ _. record { told = None; faults = 18446744073709551615; taken = 18446744073709551615 } };

    fn load(&mut self, alloc: Global, name: &str, most: usize) -> Result<Vec<u8>, LoadFault> {
        let bytes = match name {
            "c" => self.settings,
            "n" => self.netlist,
            "s" => self.stimulus,
            _ => return Err(LoadFault::Failed),
        };
        if bytes.len() > most {
            return Err(LoadFault::TooLong);
        }
        match bytes.to_vec(alloc) {
            Ok(bytes) => Ok(bytes),
            Err(_) => Err(LoadFault::NoMemory),
        }
    }
}

// A command over settings, a netlist and a stimulus.
pub(crate) fn perform(
    alloc: Global,
    line: &str,
    settings: &str,
    netlist: &str,
    stimulus: &str,
) -> Result<Ran, AllocError> {
    let mut files = Three {
        settings: settings.as_bytes(),
        netlist: netlist.as_bytes(),
        stimulus: stimulus.as_bytes(),
    };
    run_line(alloc, line, &mut files, Vec::new(alloc))
}

// What a command wrote.
pub(crate) fn written<'a>(ran: &'a Ran) -> Result<&'a str, Fail> {
    let text = std::str::from_utf8(ran.out.bytes()).ok().ok_or("no text")?;
    Ok(text)
}

// The number of the first line of that word.
pub(crate) fn number_of(text: &str, word: &str) -> Result<u32, Fail> {
    for line in text.lines() {
        if let Some(("", digits)) = line.split_once(word) {
            return Ok(digits.parse::<u32>().ok().ok_or("no number")?);
        }
    }
    Err(Fail::from("no such line"))
}

// How many latches and covers a netlist has.
pub(crate) fn cells_of(netlist: &str) -> usize {
    netlist
        .lines()
        .filter(|line| line.starts_with(".latch ") || line.starts_with(".names "))
        .count()
}
