// The text of one line.
ghost use Rattle.std.specs.Prelude.{◌≡◌, ◌≤◌, ◌<◌, ◌==◌, length, take, IsTrue};
ghost use Rattle.std.specs.List.{position_or_len};
ghost use Rattle.netlist_spec.specs.Lines.{is_blank as is_blank_of, trimmed, ends_with_backslash as ends_with_backslash_of};
ghost use Rattle.imp_text.specs.LineText.{text_of_line, goes_on};

use bstr::ByteSlice;

/// The text of a line: its first `end` bytes, without a backslash that joins; and whether the next line is joined.
#[derive(Clone, Copy, Debug)]
pub(crate) struct LineText {
    pub(crate) end: usize,
    pub(crate) goes_on: bool,
}

pub(crate) fn is_blank(b: u8) -> bool
    ensures { result ≡ is_blank_of b }
{
    b <= b' '
}

/// The index of the first byte that is `byte`, or the number of bytes where none is.
pub(crate) fn index_or_len(bytes: &[u8], byte: u8) -> usize
    ensures index { result ≡ position_or_len (λ b. b == byte) bytes.now }
    ensures within { result ≤ length bytes.now }
{
    bytes.find_byte(byte).unwrap_or(bytes.len())
}

/// How many bytes are left without the blanks at their end.
fn trimmed_len(bytes: &[u8]) -> usize
    ensures within { result ≤ length bytes.now }
    ensures trimmed { take result bytes.now ≡ trimmed bytes.now }
{
    let mut len = bytes.len();
    while len > 0 && is_blank(bytes[len - 1]) {
        len -= 1;
    }
    len
}

fn ends_with_backslash(bytes: &[u8]) -> bool
    ensures value { result ≡ ends_with_backslash_of bytes.now }
    ensures some { IsTrue result → 0 < length bytes.now }
{
    match bytes.last() {
        Some(last) => *last == b'\\',
        None => false,
    }
}

/// The text of a line, which a comment or blanks may follow. Where `joins` is false, a backslash is a byte like others.
pub(crate) fn line_text(line: &[u8], joins: bool) -> LineText
    ensures within { result.end ≤ length line.now }
    ensures text { take result.end line.now ≡ text_of_line joins line.now }
    ensures goes_on { result.goes_on ≡ goes_on joins line.now }
{
    let end = index_or_len(line, b'#');
    if !joins {
        return LineText {
            end,
            goes_on: false,
        };
    }
    let end = trimmed_len(&line[..end]);
    if ends_with_backslash(&line[..end]) {
        LineText {
            end: end - 1,
            goes_on: true,
        }
    } else {
        LineText {
            end,
            goes_on: false,
        }
    }
}
