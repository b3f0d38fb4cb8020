// The linear layers of the library.
ghost use Rattle.std.specs.Prelude.{◌≡◌, ◌≤◌, Ok, IfOk, IfErr, codes, length, map, option_map};
ghost use Rattle.std.specs.Cmp.Lexicographic.{slice_cmp};
ghost use Rattle.std.specs.List.{AllByRecursion};
ghost use Rattle.std.specs.List.Sorted.{IsStrictlySortedBy};
ghost use Rattle.std.specs.Ordering.{nat_cmp};
ghost use Rattle.netlist_spec.specs.Digits.{each_gives};
ghost use Rattle.netlist_spec.specs.Netlist.{stands_in};
ghost use Rattle.guard_spec.specs.SettingsFile.{layer_of, dotted, needed, all_of, member_list, linear_entry};
ghost use Rattle.linear_layer.specs.Named.{named_linear_of};
ghost use Rattle.toml.specs.View.{view, table_view};
ghost use Rattle.settings.specs.Faults.{fault_of, IsFault};
ghost use Rattle.settings.specs.Library.{linears_of, layer_from, number_at, IsNamedLinear};

use crate::bits::{row, text_len};
use crate::entries::{check_keys_in, members, needed_in, part, refused_entry, refused_value_in};
use crate::keys::Keys;
use crate::{Name, SetFault};
use linear_layer::{Linear, NamedLinear};
use sbox_table::{NamedTable, find_in_byte_order};
use std::alloc::{AllocError, Global};
use toml::{Table as Entries, Value};

const MOST: usize = 128;

// The rows, if all have so many characters: bit j of a row is character j.
fn rows(alloc: Global, values: &[Value], width: usize) -> Result<Option<Vec<u128>>, AllocError>
    requires { width ≤ 128 }
    ensures { IfOk result (λ rows. option_map (λ rows. rows.items) rows
        ≡ each_gives (number_at width) (map view values.now)) }
{
    let mut rows = Vec::new(alloc);
    for value in values {
        match row(value, width) {
            Some(row) => rows.push(row)?,
            None => return Ok(None),
        }
    }
    Ok(Some(rows))
}

// The layer of some texts.
fn layer(alloc: Global, values: &[Value]) -> Result<Option<Linear>, AllocError>
    ensures { IfOk result (λ layer. layer ≡ layer_from (map view values.now)) }
{
    if values.is_empty() || values.len() > MOST {
        return Ok(None);
    }
    let width = match text_len(&values[0]) {
        Some(width) => width,
        None => return Ok(None),
    };
    if width == 0 || width > MOST {
        return Ok(None);
    }
    match rows(alloc, values, width)? {
        Some(rows) => Ok(Some(Linear {
            rows,
            width: width as u8,
        })),
        None => Ok(None),
    }
}

fn layer_of_value(alloc: Global, value: &Value) -> Result<Option<Linear>, AllocError>
    ensures { IfOk result (λ layer. layer ≡ layer_of (view value.now)) }
{
    match value.as_array() {
        Some(values) => layer(alloc, values),
        None => Ok(None),
    }
}

fn layer_key(alloc: Global, entry: &Entries, name: &str) -> Result<Linear, SetFault>
    ensures ok { IfOk result (λ layer.
        needed (dotted (dotted (codes "linear") name.now) (codes "rows")) (codes "rows") layer_of (table_view entry.now) ≡ Ok layer) }
    ensures err { IfErr result (λ e.
        IsFault (needed (dotted (dotted (codes "linear") name.now) (codes "rows")) (codes "rows") layer_of (table_view entry.now)) (fault_of e)) }
{
    let value = needed_in(alloc, entry, "linear", name, "rows")?;
    match layer_of_value(alloc, value)? {
        Some(layer) => Ok(layer),
        None => Err(refused_value_in(alloc, "linear", name, "rows")),
    }
}

// Whether a table has this name.
fn is_taken(tables: &[NamedTable], name: &str) -> bool
    requires { IsStrictlySortedBy (slice_cmp nat_cmp) (map (λ t. t.name) tables.now) }
    ensures { result ≡ stands_in name.now (map (λ t. t.name) tables.now) }
{
    find_in_byte_order(tables, name.as_bytes()).is_some()
}

// The layer of an entry, whose name is tested first, and then its keys in this order.
fn linear(
    alloc: Global,
    tables: &[NamedTable],
    name: &str,
    value: &Value,
) -> Result<NamedLinear, SetFault>
    requires { IsStrictlySortedBy (slice_cmp nat_cmp) (map (λ t. t.name) tables.now) }
    ensures ok { IfOk result (λ l.
        linear_entry (map (λ t. t.name) tables.now) (name.now, view value.now) ≡ Ok (named_linear_of l)) }
    ensures valid { IfOk result (λ l. IsNamedLinear (named_linear_of l)) }
    ensures err { IfErr result (λ e.
        IsFault (linear_entry (map (λ t. t.name) tables.now) (name.now, view value.now)) (fault_of e)) }
{
    if is_taken(tables, name) {
        return Err(refused_entry(alloc, "linear", name));
    }
    let entry = members(alloc, "linear", name, value)?;
    let layer = layer_key(alloc, entry, name)?;
    check_keys_in(alloc, entry, "linear", name, Keys::Linear)?;
    let name = Name::new(alloc, name.as_bytes())?;
    Ok(NamedLinear { name, layer })
}

// The layers of entries, which stand in byte order of their names.
fn linears(
    alloc: Global,
    tables: &[NamedTable],
    entries: &Entries,
) -> Result<Vec<NamedLinear>, SetFault>
    requires { IsStrictlySortedBy (slice_cmp nat_cmp) (map (λ t. t.name) tables.now) }
    ensures ok { IfOk result (λ ls.
        all_of (linear_entry (map (λ t. t.name) tables.now)) (member_list (table_view entries.now)) ≡ Ok (map named_linear_of ls.items)) }
    ensures valid { IfOk result (λ ls. AllByRecursion IsNamedLinear (map named_linear_of ls.items)) }
    ensures order { IfOk result (λ ls. IsStrictlySortedBy (slice_cmp nat_cmp) (map (λ l. l.name) ls.items)) }
    ensures err { IfErr result (λ e.
        IsFault (all_of (linear_entry (map (λ t. t.name) tables.now)) (member_list (table_view entries.now))) (fault_of e)) }
{
    let mut linears = Vec::new(alloc);
    for (name, value) in entries {
        let linear = linear(alloc, tables, name.as_str(), value)?;
        linears.push(linear)?;
    }
    Ok(linears)
}

/// The layers of `linear`, in byte order of their names, none of them under the name of a table.
pub(crate) fn linears_key(
    alloc: Global,
    doc: &Entries,
    tables: &[NamedTable],
) -> Result<Vec<NamedLinear>, SetFault>
    requires { IsStrictlySortedBy (slice_cmp nat_cmp) (map (λ t. t.name) tables.now) }
    ensures ok { IfOk result (λ ls.
        linears_of (map (λ t. t.name) tables.now) (table_view doc.now) ≡ Ok (map named_linear_of ls.items)) }
    ensures valid { IfOk result (λ ls. AllByRecursion IsNamedLinear (map named_linear_of ls.items)) }
    ensures order { IfOk result (λ ls. IsStrictlySortedBy (slice_cmp nat_cmp) (map (λ l. l.name) ls.items)) }
    ensures err { IfErr result (λ e.
        IsFault (linears_of (map (λ t. t.name) tables.now) (table_view doc.now)) (fault_of e)) }
{
    match part(alloc, doc, "linear")? {
        Some(entries) => linears(alloc, tables, entries),
        None => Ok(Vec::new(alloc)),
    }
}
