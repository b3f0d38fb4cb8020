// The logical lines of a source, one after the other.
ghost use Rattle.std.specs.Prelude.{◌≡◌, ◌+◌, ◌≤◌, ◌<◌, ◌^◌, ◌==◌, [], ◌∷◌, length, drop, min, All, OnOk, IfOk, IfSome, IfNone, OnErr};
ghost use Rattle.std.specs.List.{position_or_len};
ghost use Rattle.netlist_spec.specs.Lines.{logical_lines, plain_lines, with_words};
ghost use Rattle.imp_text.specs.Reading.{lines_from, lines_left, IsPlace};
ghost use Rattle.imp_text.specs.Tokens.{words_at, IsWithin, StandBetween};

use crate::Token;
use crate::line::index_or_len;
use crate::words::push_line;
use std::alloc::AllocError;
use std::marker::Model;

/// Where a line starts, and how many lines stand before it.
#[derive(Clone, Copy, Debug)]
struct Place {
    start: usize,
    before: u32,
}

/// The number of the next line with words, if there is one, and the place behind it.
#[derive(Clone, Copy, Debug)]
struct Found {
    number: Option<u32>,
    next: Place,
}

/// A reader of the lines of a source that have words.
#[derive(Drop)]
pub struct Lines<'a> {
    source: &'a [u8],
    joins: bool,
    place: Place,
}

impl<'a> Model for Lines<'a> {
    ghost use Rattle.std.specs.Prelude.{drop, length, ◌<◌, ◌^◌};
    ghost use Rattle.imp_text.specs.Reading.{Reading, lines_left, IsPlace};

    ghost Value = { Reading };

    ghost view = { λ lines. record { source = lines.source.now; left = lines_left lines.joins lines.place.before (drop lines.place.start lines.source.now) } };

    ghost invariant = { λ lines. IsPlace lines.source.now lines.place × (length lines.source.now < 2 ^ 32) };
}

impl<'a> Lines<'a> {
    /// The logical lines of a netlist, where a backslash at a line's end joins the next line.
    pub fn new(bytes: &'a [u8]) -> Lines<'a>
        requires { length bytes.now < 2 ^ 32 }
        ensures { result ≡ record { source = bytes.now; left = logical_lines bytes.now } }
    {
        Lines {
            source: bytes,
            joins: true,
            place: Place {
                start: 0,
                before: 0,
            },
        }
    }

    /// The lines of a stimulus or a script, where no line is joined.
    pub fn plain(bytes: &'a [u8]) -> Lines<'a>
        requires { length bytes.now < 2 ^ 32 }
        ensures { result ≡ record { source = bytes.now; left = plain_lines bytes.now } }
    {
        Lines {
            source: bytes,
            joins: false,
            place: Place {
                start: 0,
                before: 0,
            },
        }
    }

    /// Puts the words of the next line into `words`, in place of what was there, and answers the number of the first
    /// line that was joined, from 1.
    pub fn next_line(&mut self, words: &mut Vec<Token>) -> Result<Option<u32>, AllocError>
        ensures some { IfOk result (λ line. IfSome line (λ number.
            self.old.left ≡ record { number = number; words = words_at self.old.source words.new.items } ∷ self.new.left)) }
        ensures none { IfOk result (λ line. IfNone line
            ((self.old.left ≡ []) × (self.new ≡ self.old) × (words.new.items ≡ []))) }
        ensures err { OnErr result ((self.new ≡ self.old) × (words.new.items ≡ [])) }
        ensures source { self.new.source ≡ self.old.source }

        // Each word is some bytes of the source, and the words stand one behind the other.
        ensures within { All (IsWithin self.old.source) words.new.items }
        ensures in_order { StandBetween 0 (length self.old.source) words.new.items }
    {
        words.clear();
        match find_line(self.source, self.joins, self.place, words) {
            Ok(found) => {
                self.place = found.next;
                Ok(found.number)
            }
            Err(error) => {
                words.clear();
                Err(error)
            }
        }
    }
}

/// Pushes the words of the next line with words at or behind `place`.
fn find_line(
    source: &[u8],
    joins: bool,
    place: Place,
    tokens: &mut Vec<Token>,
) -> Result<Found, AllocError>
    requires short { length source.now < 2 ^ 32 }
    requires place { IsPlace source.now place }
    requires none { tokens.old.items ≡ [] }
    ensures some { IfOk result (λ found. IfSome found.number (λ number.
        lines_left joins place.before (drop place.start source.now)
        ≡ record { number = number; words = words_at source.now tokens.new.items }
        ∷ lines_left joins found.next.before (drop found.next.start source.now))) }
    ensures none { IfOk result (λ found. IfNone found.number
        ((lines_left joins place.before (drop place.start source.now) ≡ [])
        × (lines_left joins found.next.before (drop found.next.start source.now) ≡ [])
        × (tokens.new.items ≡ []))) }
    ensures next { IfOk result (λ found. IsPlace source.now found.next) }
    ensures in_order { OnOk result (StandBetween 0 (length source.now) tokens.new.items) }
{
    let mut at = place;
    while at.start < source.len() {
        let next = push_logical_line(source, joins, at, tokens)?;
        if !tokens.is_empty() {
            return Ok(Found {
                number: Some(at.before + 1),
                next,
            });
        }
        at = next;
    }
    Ok(Found {
        number: None,
        next: at,
    })
}

/// Pushes the words of the line at `place` and of those that are joined to it, and answers the place behind them.
fn push_logical_line(
    source: &[u8],
    joins: bool,
    place: Place,
    tokens: &mut Vec<Token>,
) -> Result<Place, AllocError>
    requires short { length source.now < 2 ^ 32 }
    requires place { IsPlace source.now place }
    requires more { place.start < length source.now }
    requires none { tokens.old.items ≡ [] }
    ensures line { IfOk result (λ next.
        lines_left joins place.before (drop place.start source.now)
        ≡ with_words (record { number = place.before + 1; words = words_at source.now tokens.new.items }
        ∷ lines_from joins next.before (drop next.start source.now))) }
    ensures next { IfOk result (λ next. IsPlace source.now next) }
    ensures further { IfOk result (λ next. place.start < next.start) }
    ensures in_order { IfOk result (λ next. StandBetween 0 next.start tokens.new.items) }
{
    let mut at = place;
    while at.start < source.len() {
        let end = line_end(source, at.start);
        let goes_on = push_line(source, joins, at.start, end, tokens)?;
        at = behind(source, at, end);
        if !goes_on {
            return Ok(at);
        }
    }
    Ok(at)
}

/// Where the line that starts at `start` ends.
fn line_end(source: &[u8], start: usize) -> usize
    requires { start ≤ length source.now }
    ensures end { result ≡ start + position_or_len (λ b. b == 10) (drop start source.now) }
    ensures within { result ≤ length source.now }
{
    start + index_or_len(&source[start..], b'\n')
}

/// The place behind the line at `place`, which ends at `end`.
fn behind(source: &[u8], place: Place, end: usize) -> Place
    requires short { length source.now < 2 ^ 32 }
    requires within { end ≤ length source.now }
    requires counted { place.before < length source.now }
    ensures { result ≡ record { start = min (end + 1) (length source.now); before = place.before + 1 } }
{
    Place {
        start: (end + 1).min(source.len()),
        before: place.before + 1,
    }
}
