//! What the program's `main` does: the words of the command line, files of the system, and two output streams.
#![tactic(auto)]

ghost use Rattle.std.specs.Prelude.{◌≡◌, ◌≢◌};
ghost use Rattle.std.specs.Process.{exit_status};
ghost use Rattle.impeccable.specs.Outcome.{code_of};

use imp_io::{RealFiles, RealSink};
use impeccable::{Outcome, run};
use std::io::{ErrorKind, Write};
use std::process::ExitCode;
use std::rt::{Env, Files};
use std::{env, io};

// The statuses where the runtime doesn't give the words: for want of memory, and for another cause.
const NO_MEMORY: u8 = 5;

const NO_WORDS: u8 = 7;

/// Runs the words of the command line over the files of the runtime, and answers the status to end with. Texts are
/// written to `out`, and lines on refusals and faults to `err`.
pub fn run_words<R: Env + Files + AllocGlobal, O: Write + Drop, E: Write + Drop>(
    rt: &R,
    out: O,
    err: E,
) -> ExitCode {
    let words = match read_words(rt) {
        Ok(words) => words,
        Err(error) => return ExitCode::from(status_of(error.kind())),
    };
    let mut files = RealFiles::new(rt);
    let mut out = RealSink::new(out);
    let mut err = RealSink::new(err);
    let outcome = run(rt.alloc(), &words, &mut files, &mut out, &mut err);
    exit_code(&outcome)
}

/// The status that an outcome ends with.
pub fn exit_code(outcome: &Outcome) -> ExitCode
    ensures { exit_status result ≡ code_of outcome.now }
{
    ExitCode::from(outcome.code())
}

// The words of the command line, without the program's own name.
fn read_words<R: Env + AllocGlobal>(rt: &R) -> io::Result<Vec<String>> {
    let mut words = env::args(rt)?;
    let _ = words.next();
    Ok(words.collect(rt.alloc())?)
}

fn status_of(cause: ErrorKind) -> u8
    ensures no_memory { cause ≡ ErrorKind.OutOfMemory → result ≡ NO_MEMORY }
    ensures other { cause ≢ ErrorKind.OutOfMemory → result ≡ NO_WORDS }
{
    if cause == ErrorKind::OutOfMemory {
        NO_MEMORY
    } else {
        NO_WORDS
    }
}
