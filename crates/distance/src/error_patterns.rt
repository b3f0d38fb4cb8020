// The error patterns of few places, with their syndromes.
ghost use Rattle.std.specs.Prelude.{◌≡◌, ℕ, ◌+◌, ◌*◌, ◌^◌, ◌<◌, ◌≤◌, ◌++◌, [], ◌∷◌, map, take_while, nat_lt, vec_len, All, OnOk, IfOk};
ghost use Rattle.guard_spec.specs.Codes.{data_places, IsDistance, ArePatterns};
ghost use Rattle.distance.specs.Levels.{IsLevel};
ghost use Rattle.distance.specs.Patterns.{pattern_of, pattern_at};

use block_code::{Code, Word};
use std::alloc::{AllocError, Global};

/// An error pattern over the places of a word, which has a 1 at each place in error, and its syndrome.
#[derive(Clone, Copy, Debug, PartialEq, Eq)]
pub struct Pattern {
    pub error: Word,
    pub syndrome: Word,
}

/// Every error pattern of weight 1 to t over the words of m data places, by weight and then by number, with its
/// syndrome. Where the distance is above 2t their syndromes differ, so that there are fewer of them than syndromes.
pub fn patterns(alloc: Global, c: &Code, m: u8, t: u8) -> Result<Vec<Pattern>, AllocError>
    requires some_place { 1 ≤ m }
    requires places { m ≤ data_places c.now }
    requires distance { (d : ℕ) × IsDistance c.now d × (2 * t < d) }
    ensures all { IfOk result (λ v.
        ArePatterns c.now m t (map (pattern_of (m + c.now.columns) c.now.columns) v.items)) }
    ensures within { IfOk result (λ v.
        All (λ p. (p.error.0 < 2 ^ (m + c.now.columns)) × (p.syndrome.0 < 2 ^ c.now.columns)) v.items) }
    ensures few { IfOk result (λ v. vec_len v < 2 ^ c.now.columns) }
    ensures at_most { IfOk result (λ v. vec_len v ≤ 65535) }
{
    let places = m + c.r();
    let mut found = Vec::new(alloc);
    let mut errors = vec![in alloc; 0]?;
    for _ in 0..t {
        errors = with_one_more(alloc, &errors, places)?;
        push_patterns(&mut found, c, m, &errors)?;
    }
    Ok(found)
}

// Appends these errors with their syndromes.
fn push_patterns(
    found: &mut Vec<Pattern>,
    c: &Code,
    m: u8,
    errors: &[u32],
) -> Result<(), AllocError>
    requires some_place { 1 ≤ m }
    requires places { m ≤ data_places c.now }
    requires within { All (λ x. x < 2 ^ (m + c.now.columns)) errors.now }
    ensures { OnOk result (found.new.items ≡ found.old.items ++ map (pattern_at c.now m) errors.now) }
{
    for error in errors {
        let error = Word(*error);
        let syndrome = c.syndrome(error, m);
        found.push(Pattern { error, syndrome })?;
    }
    Ok(())
}

// The words that have one 1 more than these, by their highest 1: below it each has one of these words.
fn with_one_more(alloc: Global, words: &[u32], places: u8) -> Result<Vec<u32>, AllocError>
    requires { places ≤ 32 }
    ensures { (n : ℕ) → IsLevel places n words.now → IfOk result (λ v. IsLevel places (n + 1) v.items) }
{
    let mut raised = Vec::new(alloc);
    for place in 0..places {
        push_with(&mut raised, words, place)?;
    }
    Ok(raised)
}

// Appends the first words, those below that place, each with a 1 at the place.
fn push_with(raised: &mut Vec<u32>, words: &[u32], place: u8) -> Result<(), AllocError>
    requires { place < 32 }
    ensures { OnOk result (raised.new.items
        ≡ raised.old.items ++ map (λ x. 2 ^ place + x) (take_while (λ x. nat_lt x (2 ^ place)) words.now)) }
{
    let one = 1 << place;
    for word in words {
        if *word >= one {
            break;
        }
        raised.push(one | *word)?;
    }
    Ok(())
}
