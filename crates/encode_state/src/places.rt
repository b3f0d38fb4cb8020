// The places of nets, by the numbers of their names.
ghost use Rattle.std.specs.Prelude.{◌≡◌, ◌<◌, ◌^◌, List, length, map, All, IfOk};
ghost use Rattle.netlist_spec.specs.Netlist.{Name as Bytes};
ghost use Rattle.blif_read.specs.Ids.{IsIdOf};
ghost use Rattle.blif_read.specs.View.{name_at};
ghost use Rattle.encode_state.specs.Places.{ArePlaces, IsPlaceOf};

use imp_text::{NameId, Names};
use std::alloc::{AllocError, Global};

/// The place of each name among some nets.
pub(crate) fn places_of(
    alloc: Global,
    names: &Names,
    nets: &[NameId],
) -> Result<Vec<Option<u32>>, AllocError>
    requires ids { All (IsIdOf names.now) nets.now }
    requires few { length nets.now < 2 ^ 32 }
    ensures { IfOk result (λ places. ArePlaces names.now (map (name_at names.now) nets.now) places.items) }
{
    let mut places = vec![in alloc; None; names.len() as usize]?;
    for (i, net) in nets.iter().enumerate() {
        places[net.0 as usize] = Some(i as u32);
    }
    Ok(places)
}

/// The place of a name among the nets of these places, and None exactly where it is none of them.
pub(crate) fn place_of(names: &Names, places: &[Option<u32>], name: &[u8]) -> Option<u32>
    requires { length places.now ≡ length names.now }
    ensures { (nets : List Bytes) → ArePlaces names.now nets places.now → IsPlaceOf nets name.now result }
{
    match names.find(name) {
        Some(id) => places[id.0 as usize],
        None => None,
    }
}
