// A line by its kind and its words.
ghost use Rattle.std.specs.Prelude.{◌≡◌, ◌<◌, ◌≤◌, length, All, OnOk};
ghost use Rattle.std.specs.List.{AllByRecursion};
ghost use Rattle.imp_text.specs.Tokens.{words_at, IsWithin};
ghost use Rattle.blif_read.specs.LineTests.{words_in, HasByte, line_of, IsLine};

use crate::kind::Kind;
use imp_text::Token;
use std::alloc::AllocError;

// The number of a line, the kind of its first word, and its words. It has at least one.
#[derive(Clone, Copy)]
pub(crate) struct Line<'w, 'a> {
    pub(crate) number: u32,
    pub(crate) kind: Kind,
    pub(crate) words: &'w [&'a [u8]],
}

impl<'w, 'a> Line<'w, 'a> {
    pub(crate) fn new(number: u32, words: &'w [&'a [u8]]) -> Line<'w, 'a>
        requires some { 0 < length words.now }
        requires bytes { AllByRecursion HasByte (words_in words.now) }
        ensures line { line_of result ≡ record { number = number; words = words_in words.now } }
        ensures is_line { IsLine result }
    {
        Line {
            number,
            kind: Kind::new(words[0]),
            words,
        }
    }
}

// Puts the words at the tokens into `words`, in place of what was there.
pub(crate) fn fill_words<'a>(
    source: &'a [u8],
    tokens: &[Token],
    words: &mut Vec<&'a [u8]>,
) -> Result<(), AllocError>
    requires { All (IsWithin source.now) tokens.now }
    ensures { OnOk result (words_in words.new.items ≡ words_at source.now tokens.now) }
{
    words.clear();
    for token in tokens {
        words.push(&source[token.start..token.end])?;
    }
    Ok(())
}
