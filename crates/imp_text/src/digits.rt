// Numbers in decimal digits.
ghost use Rattle.std.specs.Prelude.{◌≡◌};
ghost use Rattle.netlist_spec.specs.Digits.{decimal_of};

const MOST_DIGITS: usize = 6;

/// The number that a word spells in 1 to 6 ASCII digits, if it is at most `most`.
pub fn decimal(word: &[u8], most: u32) -> Option<u32>
    ensures { result ≡ decimal_of most word.now }
{
    if word.is_empty() || word.len() > MOST_DIGITS {
        return None;
    }
    let mut value = 0;
    for digit in word {
        if !digit.is_ascii_digit() {
            return None;
        }
        value = 10 * value + u32::from(*digit - b'0');
    }
    if value <= most { Some(value) } else { None }
}
