// The tables of a library, by name.
ghost use Rattle.std.specs.Prelude.{◌≡◌, find, map, option_copied};
ghost use Rattle.std.specs.Cmp.Lexicographic.{slice_cmp};
ghost use Rattle.std.specs.List.Sorted.{IsStrictlySortedBy};
ghost use Rattle.std.specs.Ordering.{nat_cmp};
ghost use Rattle.netlist_spec.specs.Netlist.{same_name};

use crate::NamedTable;

/// The table of this name, among tables in byte order of their names. It is found by halving: tables in another order
/// need a look at each.
pub fn find_in_byte_order<'a>(tables: &'a [NamedTable], name: &[u8]) -> Option<&'a NamedTable>
    requires { IsStrictlySortedBy (slice_cmp nat_cmp) (map (λ t. t.name) tables.now) }
    ensures { option_copied result ≡ find (λ t. same_name t.name name.now) tables.now }
{
    match tables.binary_search_by(|table| table.name.bytes().cmp(&name)) {
        Ok(place) => Some(&tables[place]),
        Err(_) => None,
    }
}
