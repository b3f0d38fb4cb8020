// Rails over all words of small codes.
ghost use Rattle.std.specs.Prelude.{◌≡◌, ◌+◌, ◌^◌, ◌<◌, ◌≤◌, map, IfOk, vec_len};
ghost use Rattle.std.specs.List.{AllByRecursion, flat_map};
ghost use Rattle.gate_net.specs.Words.{nets_of, word_nets};
ghost use Rattle.alarm_rails.specs.Rail.{FitsCode, rail_cells};

use alarm_rails::rail;
use arrayvec::{ArrayVec, CapacityError};
use block_code::Code;
use gate_net::{GateNet, NetId, WordNets};
use std::alloc::{AllocError, Global};
use std::test::Fail;

/// The last cell of a rail over some words in each state of seven leaves, the first one the lowest bit of the state, and
/// how many cells the rail has.
fn alarms(alloc: Global, words: &[WordNets], code: &Code) -> Result<(Vec<bool>, u32), AllocError>
    requires words { AllByRecursion (FitsCode code.now) (map word_nets words.now) }
    requires nets { AllByRecursion (λ n. n < 7) (flat_map nets_of (map word_nets words.now)) }
    requires room { rail_cells code.now (map word_nets words.now) ≤ 2 ^ 22 }
    ensures { IfOk result (λ r. vec_len r.0 ≡ 128) }
{
    let mut net = GateNet::new(alloc, 7)?;
    let last = rail(words, code, &mut net)?;
    let nets = net.len();
    let mut found = Vec::new(alloc);
    for s in 0..128u32 {
        let state = [
            s & 1 != 0,
            s & 2 != 0,
            s & 4 != 0,
            s & 8 != 0,
            s & 16 != 0,
            s & 32 != 0,
            s & 64 != 0,
        ];
        let mut row = vec![in alloc; false; nets as usize]?;
        net.eval_into(&state, &mut row);
        found.push(row[last.0 as usize])?;
    }
    Ok((found, nets - 7))
}

/// The word of these nets.
fn word(places: &[NetId], checks: &[NetId]) -> Result<WordNets, CapacityError>
    ensures places { IfOk result (λ w. w.places.items ≡ places.now) }
    ensures checks { IfOk result (λ w. w.checks.items ≡ checks.now) }
{
    Ok(WordNets {
        places: ArrayVec::try_from(places)?,
        checks: ArrayVec::try_from(checks)?,
    })
}

#[test]
fn a_rail_is_up_exactly_where_the_word_is_no_codeword(rt: HostRuntime) -> Result<(), Fail> {
    // The Hamming code of length 7, and its codewords.
    let code = Code::new(4, 3, &[0b110, 0b101, 0b011, 0b111])?;
    let codewords = [
        0, 97, 82, 51, 52, 85, 102, 7, 120, 25, 42, 75, 76, 45, 30, 127,
    ];
    let places = [NetId(0), NetId(1), NetId(2), NetId(3)];
    let words = [word(&places, &[NetId(4), NetId(5), NetId(6)])?];
    let (found, cells) = alarms(rt.alloc(), &words, &code)?;
    for s in 0..128u32 {
        assert_eq!(rt; found[s as usize], !codewords.contains(&s), "state {s}");
    }
    assert!(rt; cells <= 16, "{cells} cells");
    Ok(())
}

#[test]
fn a_rail_is_up_where_one_of_its_words_is_none(rt: HostRuntime) -> Result<(), Fail> {
    // A word of one place and a word of two places with a parity bit, and two leaves in no word.
    let code = Code::new(2, 1, &[1, 1])?;
    let words = [
        word(&[NetId(0)], &[NetId(1)])?,
        word(&[NetId(2), NetId(3)], &[NetId(4)])?,
    ];
    let (found, cells) = alarms(rt.alloc(), &words, &code)?;
    for s in 0..128u32 {
        let bad = (s & 3).count_ones() % 2 == 1 || (s & 28).count_ones() % 2 == 1;
        assert_eq!(rt; found[s as usize], bad, "state {s}");
    }
    assert!(rt; cells <= 8, "{cells} cells");
    Ok(())
}

#[test]
fn a_rail_over_no_word_is_a_constant(rt: HostRuntime) -> Result<(), Fail> {
    let code = Code::new(1, 1, &[1])?;
    let (found, cells) = alarms(rt.alloc(), &[], &code)?;
    assert!(rt; found.iter().all(|up| !*up));
    assert_eq!(rt; cells, 1);
    Ok(())
}
