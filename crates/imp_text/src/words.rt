// The words of a part of a source.
ghost use Rattle.std.specs.Prelude.{◌≡◌, ◌≤◌, ◌<◌, ◌++◌, length, slice_range, position, OnOk, IfOk};
ghost use Rattle.std.specs.List.{position_or_len};
ghost use Rattle.netlist_spec.specs.Lines.{is_blank as is_blank_of, words as words_of};
ghost use Rattle.imp_text.specs.LineText.{text_of_line, goes_on};
ghost use Rattle.imp_text.specs.Tokens.{words_at, StandBetween};

use crate::Token;
use crate::line::{is_blank, line_text};
use std::alloc::AllocError;

fn first_blank(bytes: &[u8]) -> Option<usize>
    ensures { result ≡ position is_blank_of bytes.now }
{
    bytes.iter().position(|b| is_blank(*b))
}

/// How many bytes stand before the first blank.
fn word_len(bytes: &[u8]) -> usize
    ensures len { result ≡ position_or_len is_blank_of bytes.now }
    ensures within { result ≤ length bytes.now }
{
    first_blank(bytes).unwrap_or(bytes.len())
}

/// Appends the words of the bytes from `start` up to `end`.
fn push_words(
    source: &[u8],
    start: usize,
    end: usize,
    tokens: &mut Vec<Token>,
) -> Result<(), AllocError>
    requires order { start ≤ end }
    requires within { end ≤ length source.now }
    requires places { StandBetween 0 start tokens.old.items }
    ensures words { OnOk result (words_at source.now tokens.new.items
        ≡ words_at source.now tokens.old.items ++ words_of (slice_range source.now start end)) }
    ensures places { OnOk result (StandBetween 0 end tokens.new.items) }
{
    let mut at = start;
    while at < end {
        let len = word_len(&source[at..end]);
        if len == 0 {
            at += 1;
        } else {
            tokens.push(Token {
                start: at,
                end: at + len,
            })?;
            at += len;
        }
    }
    Ok(())
}

/// Appends the words of the line from `start` up to `end`, and answers whether the next line is joined.
pub(crate) fn push_line(
    source: &[u8],
    joins: bool,
    start: usize,
    end: usize,
    tokens: &mut Vec<Token>,
) -> Result<bool, AllocError>
    requires order { start ≤ end }
    requires within { end ≤ length source.now }
    requires places { StandBetween 0 start tokens.old.items }
    ensures goes_on { IfOk result (λ on. on ≡ goes_on joins (slice_range source.now start end)) }
    ensures words { OnOk result (words_at source.now tokens.new.items
        ≡ words_at source.now tokens.old.items ++ words_of (text_of_line joins (slice_range source.now start end))) }
    ensures places { OnOk result (StandBetween 0 end tokens.new.items) }
{
    let text = line_text(&source[start..end], joins);
    push_words(source, start, start + text.end, tokens)?;
    Ok(text.goes_on)
}
