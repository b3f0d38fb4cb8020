// Correctors over all words of small codes.
ghost use Rattle.std.specs.Prelude.{◌≡◌, ℕ, ◌*◌, ◌<◌, ◌≤◌, IfOk, length, vec_len};
ghost use Rattle.std.specs.List.{AllByRecursion};
ghost use Rattle.guard_spec.specs.Codes.{IsDistance, data_places};
ghost use Rattle.guard_spec.specs.Plain.{corrector_cost};
ghost use Rattle.gate_net.specs.Words.{nets_of, word_nets};

use arrayvec::{ArrayVec, CapacityError};
use block_code::{Code, CodeFault};
use corrector::corrected;
use distance::{distance, patterns};
use gate_net::{GateNet, NetId, WordNets};
use std::alloc::Global;
use std::process::Abort;
use std::test::Fail;

/// What a corrector within t gives for a word of nets in each state of eight leaves, the first one the lowest bit of the
/// state: a bit for each data place.
fn corrections(alloc: Global, word: &WordNets, code: &Code, t: u8) -> Result<Vec<Vec<bool>>, Fail>
    requires some_place { 1 ≤ length word.now.places.items }
    requires places { length word.now.places.items ≤ data_places code.now }
    requires checks { length word.now.checks.items ≡ code.now.columns }
    requires nets { AllByRecursion (λ n. n < 8) (nets_of (word_nets word.now)) }
    requires distance { (d : ℕ) × IsDistance code.now d × (2 * t < d) }
    requires room { corrector_cost code.now t (length word.now.places.items) ≤ 4096 }
    ensures { IfOk result (λ r. vec_len r ≡ 256) }
{
    let mut net = GateNet::new(alloc, 8)?;
    let pats = patterns(alloc, code, word.places.len() as u8, t)?;
    let nets = corrected(alloc, word, code, t, &pats, &mut net)?;
    let mut found = Vec::new(alloc);
    for s in 0..256u32 {
        let state = [
            s & 1 != 0,
            s & 2 != 0,
            s & 4 != 0,
            s & 8 != 0,
            s & 16 != 0,
            s & 32 != 0,
            s & 64 != 0,
            s & 128 != 0,
        ];
        let mut row = vec![in alloc; false; net.len() as usize]?;
        net.eval_into(&state, &mut row);
        found.push(bits_at(alloc, &row, &nets)?)?;
    }
    Ok(found)
}

/// The bits of these nets.
fn bits_at(alloc: Global, row: &[bool], nets: &[NetId]) -> Result<Vec<bool>, Fail> {
    let mut bits = Vec::new(alloc);
    for n in nets {
        bits.push(*row.get(n.0 as usize).ok_or("no such net")?)?;
    }
    Ok(bits)
}

/// The word of these nets.
fn word(places: &[NetId], checks: &[NetId]) -> Result<WordNets, CapacityError>
    ensures places { IfOk result (λ w. w.places.items ≡ places.now) }
    ensures checks { IfOk result (λ w. w.checks.items ≡ checks.now) }
{
    Ok(WordNets {
        places: ArrayVec::try_from(places)?,
        checks: ArrayVec::try_from(checks)?,
    })
}

/// The number that bits spell, the first of them lowest.
fn number(bits: &[bool]) -> u32 {
    let mut number = 0u32;
    for bit in bits.iter().rev() {
        number = number.wrapping_mul(2) | u32::from(*bit);
    }
    number
}

/// The data of the codeword that is at most t places apart from a word. All codewords are gone through: that at place u is
/// the codeword of the data u.
fn nearest(codewords: &[u32], z: u32, t: u32) -> Option<u32> {
    let u = codewords.iter().position(|c| (*c ^ z).count_ones() <= t)?;
    u32::try_from(u).ok()
}

/// Compares what is found in each state with the data of the nearest codeword, where there is one. There are so many words,
/// and a codeword is near so many states.
fn check(rt: &impl Abort, found: &[Vec<bool>], codewords: &[u32], words: u32, t: u32, near: usize)
    requires { 0 < words }
{
    for (s, bits) in found.iter().enumerate() {
        let z = u32::try_from(s).unwrap_or(0) % words;
        if let Some(u) = nearest(codewords, z, t) {
            assert_eq!(rt; number(bits), u, "word {z}");
        }
    }
    let states = (0..256u32).filter(|s| nearest(codewords, *s % words, t).is_some());
    assert_eq!(rt; states.count(), near);
}

/// The Hamming code of length 7.
fn hamming_code() -> Result<Code, CodeFault>
    ensures places { IfOk result (λ c. data_places c ≡ 4) }
    ensures columns { IfOk result (λ c. c.columns ≡ 3) }
    ensures four { IfOk result (λ c. corrector_cost c 1 4 ≤ 4096) }
    ensures three { IfOk result (λ c. corrector_cost c 1 3 ≤ 4096) }
{
    Code::new(4, 3, &[0b110, 0b101, 0b011, 0b111])
}

/// A code of two data places and distance 5.
fn far_code() -> Result<Code, CodeFault>
    ensures places { IfOk result (λ c. data_places c ≡ 2) }
    ensures columns { IfOk result (λ c. c.columns ≡ 6) }
    ensures two { IfOk result (λ c. corrector_cost c 2 2 ≤ 4096) }
{
    Code::new(2, 6, &[0b001111, 0b111100])
}

#[test]
fn one_error_is_corrected(rt: HostRuntime) -> Result<(), Fail> {
    let code = hamming_code()?;
    let (d, _) = distance(&code);
    assert!(rt; 2 < d);
    let places = [NetId(0), NetId(1), NetId(2), NetId(3)];
    let word = word(&places, &[NetId(4), NetId(5), NetId(6)])?;
    let codewords = [
        0, 97, 82, 51, 52, 85, 102, 7, 120, 25, 42, 75, 76, 45, 30, 127,
    ];
    // The code is perfect: each word has a codeword within 1.
    let found = corrections(rt.alloc(), &word, &code, 1)?;
    check(&rt, &found, &codewords, 128, 1, 256);
    Ok(())
}

#[test]
fn a_short_word_is_corrected(rt: HostRuntime) -> Result<(), Fail> {
    let code = hamming_code()?;
    let (d, _) = distance(&code);
    assert!(rt; 2 < d);
    let places = [NetId(0), NetId(1), NetId(2)];
    let word = word(&places, &[NetId(3), NetId(4), NetId(5)])?;
    // Eight codewords with seven words each, in a quarter of the states.
    let found = corrections(rt.alloc(), &word, &code, 1)?;
    check(&rt, &found, &[0, 49, 42, 27, 28, 45, 54, 7], 64, 1, 224);
    Ok(())
}

#[test]
fn two_errors_are_corrected(rt: HostRuntime) -> Result<(), Fail> {
    let code = far_code()?;
    let (d, _) = distance(&code);
    assert!(rt; 4 < d);
    let checks = [NetId(2), NetId(3), NetId(4), NetId(5), NetId(6), NetId(7)];
    let word = word(&[NetId(0), NetId(1)], &checks)?;
    // Four codewords with 1 + 8 + 28 words each.
    let found = corrections(rt.alloc(), &word, &code, 2)?;
    check(&rt, &found, &[0, 61, 242, 207], 256, 2, 148);
    Ok(())
}
