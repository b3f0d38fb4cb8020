// Words of a code as numbers.
ghost use Rattle.std.specs.Prelude.{◌≡◌, ℕ, ◌^◌, ◌<◌};
ghost use Rattle.guard_spec.specs.Codes.{weight, bits_of};

/// A word of up to 32 places; place i is bit i, and bits behind its places are 0.
#[derive(Clone, Copy, Debug, PartialEq, Eq, PartialOrd, Ord, Hash)]
pub struct Word(pub u32);

/// The number of ones of a word, which is its Hamming weight.
pub fn weight(w: Word) -> u8
    ensures { (places : ℕ) → w.0 < 2 ^ places → result ≡ weight (bits_of places w.0) }
{
    w.0.count_ones() as u8
}
