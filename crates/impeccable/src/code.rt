// The command `code SETTINGS`.
ghost use Rattle.std.specs.Prelude.{◌≡◌, ◌<◌, ◌≤◌, IfOk};
ghost use Rattle.imp_io.specs.Blocks.{Gives};
ghost use Rattle.imp_io.specs.Files.{IsLater};
ghost use Rattle.imp_io.specs.Sink.{Puts};
ghost use Rattle.guard_spec.specs.Codes.{bits_of};
ghost use Rattle.netlist_spec.specs.Covers.{has_bit};
ghost use Rattle.netlist_spec.specs.Statements.{bit_char};
ghost use Rattle.program_spec.specs.Commands.{code as code_command};
ghost use Rattle.program_spec.specs.Printed.{bits_text};
ghost use Rattle.impeccable.specs.Answers.{Answers, KeepsOwn};
ghost use Rattle.impeccable.specs.Code.{Measures, report_lines, size_text, word_line};
ghost use Rattle.impeccable.specs.Ended.{answer_of, is_done, part_answer};
ghost use Rattle.impeccable.specs.Steps.{Prepares};

use crate::ended::{Ended, Stop, Success};
use crate::lines::put_number;
use crate::settings_file::load_settings;
use arrayvec::ArrayVec;
use block_code::{Code, Word};
use distance::distance;
use imp_io::{Blocks, Files, Sink, SinkFault};
use itoa::Buffer;
use std::alloc::Global;

// The numbers that the report on a code tells, and the least data whose codeword has the weight of its distance.
#[derive(Clone, Copy, Debug)]
struct Report {
    places: u8,
    data_places: u8,
    distance: u8,
    least: Word,
    detects: u8,
    corrects: u8,
}

/// Writes the report on the code of the settings of that name.
pub(crate) fn report_code<'a, F: Files, O: Sink>(
    alloc: Global,
    settings: &'a str,
    files: &mut F,
    out: &mut O,
) -> Ended<'a>
    ensures answers { Answers (code_command settings.now) (F.seen files.old) (F.seen files.new) (O.seen out.old) (O.seen out.new) (answer_of result) }
    ensures own { KeepsOwn (F.seen files.old) (F.seen files.new) (answer_of result) }
    ensures later { IsLater (F.seen files.old) (F.seen files.new) }
{
    let report = read_settings(alloc, settings, files)?;
    write_report(&report, out)?;
    Ok(Success::Done)
}

// Loads and reads the settings, and measures their code.
fn read_settings<'a, F: Files>(
    alloc: Global,
    settings: &'a str,
    files: &mut F,
) -> Result<Report, Stop<'a>>
    ensures prepares { Prepares (code_command settings.now) is_done report_lines (F.seen files.old) result (F.seen files.new) }
    ensures few { IfOk result (λ report. report.data_places ≤ 12) }
    ensures own { KeepsOwn (F.seen files.old) (F.seen files.new) (part_answer result) }
    ensures later { IsLater (F.seen files.old) (F.seen files.new) }
{
    let settings = load_settings(alloc, files, settings)?;
    let report = measure(&settings.code);
    Ok(report)
}

fn measure(code: &Code) -> Report
    ensures measured { Measures code.now result }
    ensures few { result.data_places ≤ 12 }
{
    let (distance, least) = distance(code);
    let data_places = code.k();
    let detects = distance.saturating_sub(1);
    Report {
        places: data_places + code.r(),
        data_places,
        distance,
        least,
        detects,
        corrects: detects / 2,
    }
}

fn write_report<O: Sink>(report: &Report, out: &mut O) -> Result<(), SinkFault>
    requires { report.now.data_places ≤ 12 }
    ensures { Puts (O.seen out.old) (report_lines report.now) result (O.seen out.new) }
{
    let mut blocks = Blocks::new(out);
    put_report(report, &mut blocks);
    blocks.flush()
}

// The report, a line for each number.
fn put_report<O: Sink>(report: &Report, out: &mut Blocks<'_, O>)
    requires { report.now.data_places ≤ 12 }
    ensures { Gives O.seen out.old (report_lines report.now) out.new }
{
    put_size(report.places, report.data_places, out);
    put_number(b"distance", u64::from(report.distance), out);
    put_word(report.least, report.data_places, out);
    put_number(b"detects", u64::from(report.detects), out);
    put_number(b"corrects", u64::from(report.corrects), out);
}

// The line of the numbers of places and of data places.
fn put_size<O: Sink>(n: u8, k: u8, out: &mut Blocks<'_, O>)
    ensures { Gives O.seen out.old (size_text n k) out.new }
{
    let mut digits = Buffer::new();
    out.put_all(&[b"code ", digits.format(n).as_bytes()]);
    put_number(b"", u64::from(k), out);
}

fn put_word<O: Sink>(word: Word, places: u8, out: &mut Blocks<'_, O>)
    requires { places ≤ 12 }
    ensures { Gives O.seen out.old (word_line places word.0) out.new }
{
    out.put_all(&[b"word ", &word_text(word, places), b"\n"]);
}

// The places of a word as `0` and `1`, place 0 first.
fn word_text(word: Word, places: u8) -> ArrayVec<u8, 12>
    requires { places ≤ 12 }
    ensures { result.items ≡ bits_text (bits_of places word.0) }
{
    let mut text = ArrayVec::new();
    for i in 0..places {
        text.push(char_at(word, i));
    }
    text
}

fn char_at(word: Word, i: u8) -> u8
    requires { i < 32 }
    ensures { result ≡ bit_char (has_bit word.0 i) }
{
    if (word.0 >> i) & 1 == 1 { b'1' } else { b'0' }
}
