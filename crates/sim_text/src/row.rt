// The bits of one cycle, as a line of a stimulus spells them.
ghost use Rattle.std.specs.Prelude.{◌≡◌, ◌+◌, ◌<◌, ◌^◌, [], ◌∷◌, length, All, IfOk};
ghost use Rattle.netlist_spec.specs.Digits.{bit_of_char as bit_of, bits_of_text};
ghost use Rattle.stimulus_spec.specs.Stimulus.{stimulus_row};
ghost use Rattle.imp_text.specs.Tokens.{words_at, IsWithin};
ghost use Rattle.sim_text.specs.Rows.{IsPushed};

use crate::bits::Bits;
use imp_text::Token;
use std::alloc::AllocError;

fn bit_of_char(c: u8) -> Option<bool>
    ensures { result ≡ bit_of c }
{
    match c {
        b'0' => Some(false),
        b'1' => Some(true),
        _ => None,
    }
}

// Appends the bits of a word, and answers whether it has bits alone.
fn push_bits(word: &[u8], bits: &mut Bits) -> Result<bool, AllocError>
    requires { length bits.old + length word.now < 2 ^ 62 }
    ensures { IfOk result (λ fits. IsPushed fits (bits_of_text word.now) bits.old bits.new) }
{
    for c in word {
        let Some(bit) = bit_of_char(*c) else {
            return Ok(false);
        };
        bits.push(bit)?;
    }
    Ok(true)
}

// Appends the bits of a word for so many data inputs, and answers whether it is a row for them.
fn push_word(word: &[u8], inputs: u32, bits: &mut Bits) -> Result<bool, AllocError>
    requires { length bits.old < 2 ^ 61 }
    ensures { IfOk result (λ fits. IsPushed fits (stimulus_row inputs (word.now ∷ [])) bits.old bits.new) }
{
    if inputs == 0 {
        return Ok(word == b"-".as_slice());
    }
    if word.len() != inputs as usize {
        return Ok(false);
    }
    push_bits(word, bits)
}

// Appends the bits of the words of a line, and answers whether they are a row for so many data inputs.
pub(crate) fn push_row(
    source: &[u8],
    words: &[Token],
    inputs: u32,
    bits: &mut Bits,
) -> Result<bool, AllocError>
    requires within { All (IsWithin source.now) words.now }
    requires few { length bits.old < 2 ^ 61 }
    ensures { IfOk result (λ fits. IsPushed fits (stimulus_row inputs (words_at source.now words.now)) bits.old bits.new) }
{
    match words {
        [word] => push_word(&source[word.start..word.end], inputs, bits),
        _ => Ok(false),
    }
}
