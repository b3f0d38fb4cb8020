// Laws of linear codes: what the distance of a code tells of words. They are those of any textbook on coding theory.
ghost use Rattle.std.specs.Prelude.{◌≡◌, ◌≢◌, ℕ, ◌+◌, ◌*◌, ◌<◌, ◌≤◌, ◌↔◌, length, take};
ghost use Rattle.netlist_spec.specs.SourceRun.{Bits};
ghost use Rattle.guard_spec.specs.Codes.{Code, data_places, IsCode, encoded, weight, apart, IsDistance, IsCodeword, Decodes, syndrome_of};

/// The number of places in which two words differ is a distance.
pub fn words_have_distances()
    ensures symmetric { (a b : Bits) → apart a b ≡ apart b a }
    ensures equal { (a b : Bits) → (apart a b ≡ 0) ↔ (a ≡ b) }
    ensures triangle { (a b c : Bits) → apart a c ≤ apart a b + apart b c }
{}

/// A code has at most one distance.
pub fn codes_have_one_distance()
    ensures { (code : Code) (d e : ℕ) → IsDistance code d → IsDistance code e → d ≡ e }
{}

/// Leaving places out doesn't lower the distance: neither has a shorter word that isn't zero a codeword of a lesser
/// weight, nor has the code of the first rows alone a lesser distance.
pub fn short_words_keep_the_distance()
    ensures weights { (code : Code) (d : ℕ) (u : Bits) → IsCode code → IsDistance code d
        → length u ≤ data_places code → 0 < weight u → d ≤ weight (encoded code u) }
    ensures codes { (code : Code) (d e m : ℕ) → IsCode code → IsDistance code d
        → m ≤ data_places code
        → IsDistance (record { columns = code.columns; rows = take m code.rows }) e → d ≤ e }
{}

/// In a code of distance d, codewords of different data are at least d places apart, also those of words that use
/// the first rows alone. A word that is 1 to d - 1 places apart from a codeword is none. Where 2t is below d, a word
/// that is at most t places apart from a codeword decodes to it, and no two codewords are within t of one word.
pub fn codes_tell_errors()
    ensures far { (code : Code) (d m : ℕ) (u w : Bits) → IsCode code → IsDistance code d
        → m ≤ data_places code → length u ≡ m → length w ≡ m → u ≢ w
        → d ≤ apart (encoded code u) (encoded code w) }
    ensures detected { (code : Code) (d m : ℕ) (z u : Bits) → IsCode code → IsDistance code d
        → m ≤ data_places code → length u ≡ m
        → 0 < apart z (encoded code u) → apart z (encoded code u) < d → IsCodeword code m z → ⊥ }
    ensures decoded { (code : Code) (d t : ℕ) (z u : Bits) → IsCode code → IsDistance code d → 2 * t < d
        → length u ≤ data_places code → apart z (encoded code u) ≤ t → Decodes code t z u }
    ensures unique { (code : Code) (d t m : ℕ) (z a b : Bits) → IsCode code → IsDistance code d → 2 * t < d
        → m ≤ data_places code → IsCodeword code m a → IsCodeword code m b
        → apart z a ≤ t → apart z b ≤ t → a ≡ b }
{}

/// The syndrome of a word has as many places as the code has columns, and is zero exactly where the word is a
/// codeword. Where 2t is below d, different errors of at most t places have different syndromes.
pub fn syndromes_tell_errors()
    ensures places { (code : Code) (m : ℕ) (z : Bits) → IsCode code → length z ≡ m + code.columns
        → length (syndrome_of code m z) ≡ code.columns }
    ensures zero { (code : Code) (m : ℕ) (z : Bits) → IsCode code → length z ≡ m + code.columns
        → (weight (syndrome_of code m z) ≡ 0) ↔ IsCodeword code m z }
    ensures different { (code : Code) (d t m : ℕ) (e f : Bits) → IsCode code → IsDistance code d → 2 * t < d
        → m ≤ data_places code → length e ≡ m + code.columns → length f ≡ m + code.columns
        → weight e ≤ t → weight f ≤ t → syndrome_of code m e ≡ syndrome_of code m f → e ≡ f }
{}
