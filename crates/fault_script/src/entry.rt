// What one line of a script says.
ghost use Rattle.std.specs.Prelude.{◌≡◌, [], ◌∷◌, option_map, All, IfSome};
ghost use Rattle.stimulus_spec.specs.Stimulus.{script_bit as script_bit_of, script_entry};
ghost use Rattle.imp_text.specs.Tokens.{words_at, IsWithin};
ghost use Rattle.fault_script.specs.Entries.{said_by};

use imp_text::{Token, decimal};

const LAST_CYCLE: u32 = 999_999;

/// A cycle, the name of a cell as a part of the source, and the bit that this cell gives.
#[derive(Clone, Copy, Debug)]
pub(crate) struct Entry {
    pub(crate) cycle: u32,
    pub(crate) cell: Token,
    pub(crate) value: bool,
}

fn script_bit(word: &[u8]) -> Option<bool>
    ensures { result ≡ script_bit_of word.now }
{
    match word {
        b"0" => Some(false),
        b"1" => Some(true),
        _ => None,
    }
}

// The entry of a line with three words, where it is one.
fn entry_of_three(source: &[u8], cycle: Token, cell: Token, bit: Token) -> Option<Entry>
    requires cycle { IsWithin source.now cycle }
    requires bit { IsWithin source.now bit }
    ensures entry { option_map (said_by source.now) result ≡ script_entry (words_at source.now (cycle ∷ cell ∷ bit ∷ [])) }
    ensures cell { IfSome result (λ e. e.cell ≡ cell) }
{
    let cycle = decimal(&source[cycle.start..cycle.end], LAST_CYCLE)?;
    let value = script_bit(&source[bit.start..bit.end])?;
    Some(Entry { cycle, cell, value })
}

// The entry of a line with these words, where it is one.
pub(crate) fn entry_of(source: &[u8], words: &[Token]) -> Option<Entry>
    requires { All (IsWithin source.now) words.now }
    ensures entry { option_map (said_by source.now) result ≡ script_entry (words_at source.now words.now) }
    ensures within { IfSome result (λ e. IsWithin source.now e.cell) }
{
    match *words {
        [cycle, cell, bit] => entry_of_three(source, cycle, cell, bit),
        _ => None,
    }
}
