// What the line of each refusal tells.
ghost use Rattle.std.specs.Prelude.{◌≡◌, ◌∷◌, ◌++◌};
ghost use Rattle.netlist_spec.specs.Escapes.{escaped};
ghost use Rattle.program_spec.specs.ErrorLines.{at_line, refusal_text};
ghost use Rattle.refusals.specs.Refusal.{refusal_of};
ghost use Rattle.refusals.specs.Lines.{tail_text, told_text};

use crate::Refusal;
use blif_read::Names;

/// The number of a refusal, that of a line of the input, what is wrong, and what is told behind that.
#[derive(Clone, Copy)]
pub(crate) struct Told<'a> {
    pub(crate) number: &'static str,
    pub(crate) line: Option<u32>,
    pub(crate) text: &'static str,
    pub(crate) tail: Tail<'a>,
}

/// What is told behind the text of a refusal: nothing, a name, two names, names each of which follows a blank, or a number
/// below another.
#[derive(Clone, Copy)]
pub(crate) enum Tail<'a> {
    Nothing,
    Name(&'a [u8]),
    Pair(&'a [u8], &'a [u8]),
    Each(&'a Names),
    Below(u8, u8),
}

impl<'a> Tail<'a> {
    // A name, and nothing where it is empty.
    fn of(name: &'a [u8]) -> Self
        ensures { tail_text result ≡ escaped name.now }
    {
        if name.is_empty() {
            Tail::Nothing
        } else {
            Tail::Name(name)
        }
    }
}

/// What is told of a refusal.
pub(crate) fn told_of(refusal: &Refusal) -> Told<'_>
    ensures { told_text result ≡ refusal_text (refusal_of refusal.now) }
{
    match refusal {
        Refusal::FileTooLong(name) => named("F1", "file too long ", name.bytes()),
        Refusal::UnknownStatement(line, word) => {
            on_line("B1", *line, "unknown statement ", word.bytes())
        }
        Refusal::BadRow(line) => on_line("B2", *line, "bad row", b""),
        Refusal::MixedCover(line) => on_line("B3", *line, "mixed cover", b""),
        Refusal::BadLatch(line) => on_line("B4", *line, "bad latch", b""),
        Refusal::NoModel(line) => on_line("B5", *line, "no model", b""),
        Refusal::LongName(line) => on_line("B6", *line, "long name", b""),
        Refusal::TooMany(line, what) => on_line("B7", *line, "too many ", what.word().as_bytes()),
        Refusal::TwiceModel(line, name) => on_line("B8", *line, "model twice ", name.bytes()),
        Refusal::BadSubckt(line) => on_line("B9", *line, "bad subckt", b""),
        Refusal::AfterEnd(line) => on_line("B10", *line, "after end", b""),
        Refusal::WordCount(line) => on_line("B11", *line, "word count", b""),
        Refusal::NotToml => named("S1", "settings are not TOML", b""),
        Refusal::Missing(key) => named("S2", "missing ", key.bytes()),
        Refusal::BadValue(key) => named("S3", "bad value ", key.bytes()),
        Refusal::UnknownKey(key) => named("S4", "unknown key ", key.bytes()),
        Refusal::TooSmall { d, need } => tailed("S5", "distance ", Tail::Below(*d, *need)),
        Refusal::BadShape => named("C1", "bad check matrix", b""),
        Refusal::Twice(net) => named("E1", "twice ", net.bytes()),
        Refusal::NoSuchModel(name) => named("E2", "no such model ", name.bytes()),
        Refusal::BadPort(model, formal) => {
            tailed("E3", "bad port ", Tail::Pair(model.bytes(), formal.bytes()))
        }
        Refusal::Recursion(model) => named("E4", "recursion ", model.bytes()),
        Refusal::LatchInside(model) => named("E5", "latch inside ", model.bytes()),
        Refusal::Depth(model) => named("E6", "too deep ", model.bytes()),
        Refusal::Undriven(net) => named("E7", "undriven ", net.bytes()),
        Refusal::Clocking(net) => named("E8", "clocking ", net.bytes()),
        Refusal::Loop(nets) => tailed("E9", "loop", Tail::Each(nets)),
        Refusal::Reserved(name) => named("E10", "reserved ", name.bytes()),
        Refusal::TooLarge(what) => named("E11", "too large ", what.word().as_bytes()),
        Refusal::NoSuchNet(name) => named("L1", "no such net ", name.bytes()),
        Refusal::InTwoWords(name) => named("L2", "in two words ", name.bytes()),
        Refusal::NotInAWord(name) => named("L3", "in no word ", name.bytes()),
        Refusal::GuardTooLarge => named("G1", "guard too large", b""),
        Refusal::Unordered(line) => on_line("M1", *line, "unordered", b""),
        Refusal::HasSubckt(line) => on_line("M2", *line, "has subckt", b""),
        Refusal::BadStimulus(line) => on_line("M3", *line, "bad stimulus", b""),
        Refusal::BadScript(line) => on_line("M4", *line, "bad script", b""),
        Refusal::NoSuchCell(line) => on_line("M5", *line, "no such cell", b""),
        Refusal::MoreThanSixteen(line) => on_line("M6", *line, "more than sixteen", b""),
    }
}

// A refusal without a line.
fn named<'a>(number: &'static str, text: &'static str, name: &'a [u8]) -> Told<'a>
    ensures { told_text result ≡ number.now ++ 32 ∷ (text.now ++ escaped name.now) }
{
    tailed(number, text, Tail::of(name))
}

// The same with whatever is told behind the text.
fn tailed<'a>(number: &'static str, text: &'static str, tail: Tail<'a>) -> Told<'a>
    ensures { told_text result ≡ number.now ++ 32 ∷ (text.now ++ tail_text tail.entry) }
{
    Told {
        number,
        line: None,
        text,
        tail,
    }
}

// A refusal of that line.
fn on_line<'a>(number: &'static str, line: u32, text: &'static str, name: &'a [u8]) -> Told<'a>
    ensures { told_text result ≡ at_line number.now line (text.now ++ escaped name.now) }
{
    Told {
        number,
        line: Some(line),
        text,
        tail: Tail::of(name),
    }
}
