// Words of names, as numbers.
ghost use Rattle.std.specs.Prelude.{◌≡◌, ◌<◌, ◌^◌, List, Vec, length, map, All, IfErr, IfOk};
ghost use Rattle.std.specs.declared.alloc.Global.{Global as Heap};
ghost use Rattle.std.specs.List.{AllZip, flat_map};
ghost use Rattle.netlist_spec.specs.Netlist.{Name as Bytes};
ghost use Rattle.guard_spec.specs.Words.{AreNamed, as_fault, no_such_net};
ghost use Rattle.blif_read.specs.Ids.{IsIdOf};
ghost use Rattle.blif_read.specs.View.{name_at};
ghost use Rattle.encode_state.specs.Types.{names_in};
ghost use Rattle.encode_state.specs.Faults.{IsFault, fault_of};
ghost use Rattle.encode_state.specs.Listed.{Numbers, first_unknown};
ghost use Rattle.encode_state.specs.Places.{ArePlaces};
ghost use Rattle.encode_state.specs.Types.{words_in};

use crate::LayoutFault;
use crate::places::{place_of, places_of};
use imp_text::{Name, NameId, Names};
use std::alloc::Global;

// The numbers of the names of a word.
fn numbers(
    alloc: Global,
    names: &Names,
    places: &[Option<u32>],
    word: &[Name],
) -> Result<Vec<u32>, LayoutFault>
    requires { length places.now ≡ length names.now }
    ensures ok { (nets : List Bytes) → ArePlaces names.now nets places.now
        → IfOk result (λ numbers. AllZip (Numbers nets) word.now numbers.items) }
    ensures fault { (nets : List Bytes) → ArePlaces names.now nets places.now
        → IfErr result (λ fault. IsFault (as_fault (λ n. no_such_net n) (first_unknown nets word.now)) (fault_of fault)) }
{
    let mut numbers = Vec::new(alloc);
    for name in word {
        match place_of(names, places, name.bytes()) {
            Some(place) => numbers.push(place)?,
            None => {
                let name = Name::new(alloc, name.bytes())?;
                return Err(LayoutFault::NoSuchNet(name));
            }
        }
    }
    Ok(numbers)
}

/// The words of these names over some nets, as numbers. It is a fault where a name is no net.
pub(crate) fn named_words(
    alloc: Global,
    names: &Names,
    nets: &[NameId],
    words: &[Vec<Name>],
) -> Result<Vec<Vec<u32>>, LayoutFault>
    requires ids { All (IsIdOf names.now) nets.now }
    requires few { length nets.now < 2 ^ 32 }
    ensures ok { IfOk result (λ found. AreNamed (map (name_at names.now) nets.now) (map names_in words.now) (words_in found.items)) }
    ensures fault { IfErr result (λ fault. IsFault (as_fault (λ n. no_such_net n)
        (first_unknown (map (name_at names.now) nets.now) (flat_map (λ word. word) (map names_in words.now)))) (fault_of fault)) }
{
    let places = places_of(alloc, names, nets)?;
    let mut found = Vec::new(alloc);
    for word in words {
        let numbers = numbers(alloc, names, &places, word)?;
        found.push(numbers)?;
    }
    Ok(found)
}
