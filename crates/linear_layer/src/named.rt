// The layers of a library, by name.
ghost use Rattle.std.specs.Prelude.{◌≡◌, find, map, option_copied};
ghost use Rattle.std.specs.Cmp.Lexicographic.{slice_cmp};
ghost use Rattle.std.specs.List.Sorted.{IsStrictlySortedBy};
ghost use Rattle.std.specs.Ordering.{nat_cmp};
ghost use Rattle.netlist_spec.specs.Netlist.{same_name};

use crate::NamedLinear;

/// The layer of this name, among layers in byte order of their names. It is found by halving: layers in another order
/// need a look at each.
pub fn find_in_byte_order<'a>(linears: &'a [NamedLinear], name: &[u8]) -> Option<&'a NamedLinear>
    requires { IsStrictlySortedBy (slice_cmp nat_cmp) (map (λ l. l.name) linears.now) }
    ensures { option_copied result ≡ find (λ l. same_name l.name name.now) linears.now }
{
    match linears.binary_search_by(|linear| linear.name.bytes().cmp(&name)) {
        Ok(place) => Some(&linears[place]),
        Err(_) => None,
    }
}
