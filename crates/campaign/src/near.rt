// How many places of an output word differ from the codeword of the source's bits.
ghost use Rattle.std.specs.Prelude.{◌≡◌, ◌++◌, ◌<◌, ◌≤◌, length, nat_le};
ghost use Rattle.std.specs.List.{AllByRecursion};
ghost use Rattle.netlist_spec.specs.Covers.{number_of as number};
ghost use Rattle.guard_spec.specs.Codes.{apart, data_places, encoded};
ghost use Rattle.guard_spec.specs.Words.{bits_at};

use crate::words::number_at;
use block_code::{Code, Word, weight};

// The number of some bits, the first lowest.
fn number_of(bits: &[bool]) -> u32
    requires { length bits.now ≤ 16 }
    ensures { result ≡ number bits.now }
{
    let mut number = 0;
    for i in (0..bits.len()).rev() {
        number = number * 2 + u32::from(bits[i]);
    }
    number
}

/// Whether the bits at the places of a word, and the check bits, differ in at most `t` places from the codeword of the
/// source's bits there.
pub(crate) fn is_near_word(
    code: &Code,
    t: u8,
    word: &[u32],
    y: &[bool],
    z: &[bool],
    checks: &[bool],
) -> bool
    requires some { 1 ≤ length word.now }
    requires places { length word.now ≤ data_places code.now }
    requires wanted { AllByRecursion (λ i. i < length y.now) word.now }
    requires shown { AllByRecursion (λ i. i < length z.now) word.now }
    requires checks { length checks.now ≡ code.now.columns }
    ensures { result ≡ nat_le (apart (bits_at word.now z.now ++ checks.now) (encoded code.now (bits_at word.now y.now))) t }
{
    let places = word.len();
    // A word has at most as many places as the code has rows.
    prove!(places <= code.k() as usize);
    let wanted = code.encode(Word(number_at(word, y)), places as u8);
    let shown = number_of(checks) << places | number_at(word, z);
    weight(Word(shown ^ wanted.0)) <= t
}
