//! Command lines of the program over files and sinks in memory, for the tests of its commands.
#![tactic(auto)]

ghost use Rattle.imp_io.specs.MemSink.{HasDistinctNumbers};

use imp_io::{Files, MemFile, MemFiles, MemSink};
use impeccable::run;
use std::alloc::{AllocError, Global};

/// One file of that name and those bytes, of which the loads of the given numbers fail.
pub fn held(
    alloc: Global,
    name: &str,
    text: Vec<u8>,
    fails: Vec<u32>,
) -> Result<MemFiles, AllocError> {
    let file = MemFile {
        name: String::from_str(alloc, name)?,
        bytes: text,
        failed: 0,
    };
    Ok(MemFiles::new(vec![in alloc; file]?, fails))
}

/// The words of a command line.
pub fn spell(alloc: Global, line: &str) -> Result<Vec<String>, AllocError> {
    let mut words = Vec::new(alloc);
    for word in line.split_whitespace() {
        words.push(String::from_str(alloc, word)?)?;
    }
    Ok(words)
}

/// The status of a command, and what it wrote.
#[derive(Drop)]
pub struct Ran {
    pub status: u8,
    pub out: MemSink,
    pub err: MemSink,
}

/// A command over some files. The puts of the given numbers to its output fail.
pub fn run_line<F: Files>(
    alloc: Global,
    line: &str,
    files: &mut F,
    fails: Vec<(u32, u32)>,
) -> Result<Ran, AllocError>
    requires { HasDistinctNumbers fails.items }
{
    let words = spell(alloc, line)?;
    let mut out = MemSink::new(alloc, fails);
    let mut err = MemSink::new(alloc, Vec::new(alloc));
    let outcome = run(alloc, &words, files, &mut out, &mut err);
    Ok(Ran {
        status: outcome.code(),
        out,
        err,
    })
}
