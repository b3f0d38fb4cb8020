// The distance of a code, by going through its codewords.
ghost use Rattle.std.specs.Prelude.{◌≡◌, ℕ, ◌^◌, ◌<◌, ◌≤◌};
ghost use Rattle.guard_spec.specs.Codes.{data_places, IsCode, encoded, weight, IsDistance, IsLeastData, bits_of};

use block_code::{Code, Word, weight};

/// The minimum distance of a code, which is the least weight of a codeword whose data is not zero, and the least data,
/// as a number, whose codeword has that weight. Looks at each codeword once, at most 4,096.
pub fn distance(c: &Code) -> (u8, Word)
    ensures distance { IsDistance c.now result.0 }
    ensures least { IsLeastData c.now result.0 (bits_of (data_places c.now) result.1.0) }
    ensures within { result.1.0 < 2 ^ data_places c.now }
{
    let end = 1u32 << c.k();
    let mut d = codeword_weight(c, 1);
    let mut least = 1;
    for u in 2..end {
        let weight = codeword_weight(c, u);
        if weight < d {
            d = weight;
            least = u;
        }
    }
    (d, Word(least))
}

// The weight of the codeword of data of all the code's places.
fn codeword_weight(c: &Code, u: u32) -> u8
    requires { u < 2 ^ data_places c.now }
    ensures { result ≡ weight (encoded c.now (bits_of (data_places c.now) u)) }
{
    weight(c.encode(Word(u), c.k()))
}
