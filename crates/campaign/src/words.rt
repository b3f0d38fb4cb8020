// The bits of output words as numbers.
ghost use Rattle.std.specs.Prelude.{◌≡◌, ◌<◌, ◌≤◌, false, length, slice_index_or, if◌then◌else◌};
ghost use Rattle.std.specs.List.{AllByRecursion};
ghost use Rattle.netlist_spec.specs.Covers.{number_of};
ghost use Rattle.guard_spec.specs.Words.{bits_at};

fn bit(bits: &[bool], i: u32) -> u32
    requires { i < length bits.now }
    ensures { result ≡ (if slice_index_or bits.now i false then 1 else 0) }
{
    u32::from(bits[i as usize])
}

/// The number of the bits at the places of a word, the first place lowest.
pub(crate) fn number_at(word: &[u32], bits: &[bool]) -> u32
    requires few { length word.now ≤ 12 }
    requires within { AllByRecursion (λ i. i < length bits.now) word.now }
    ensures { result ≡ number_of (bits_at word.now bits.now) }
{
    let mut number = 0;
    for i in (0..word.len()).rev() {
        number = number * 2 + bit(bits, word[i]);
    }
    number
}
