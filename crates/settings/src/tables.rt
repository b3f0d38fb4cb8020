// The S-boxes of the library.
ghost use Rattle.std.specs.Prelude.{◌≡◌, ◌-◌, ◌^◌, ◌<◌, ◌≤◌, Ok, IfOk, IfErr, IfSome, codes, length, map, option_map};
ghost use Rattle.std.specs.Cmp.Lexicographic.{slice_cmp};
ghost use Rattle.std.specs.List.{AllByRecursion};
ghost use Rattle.std.specs.List.Sorted.{IsStrictlySortedBy};
ghost use Rattle.std.specs.Ordering.{nat_cmp};
ghost use Rattle.netlist_spec.specs.Digits.{each_gives};
ghost use Rattle.guard_spec.specs.SettingsFile.{whole_between, values_of, dotted, needed, all_of, member_list, sbox_entry};
ghost use Rattle.sbox_table.specs.Named.{named_table_of};
ghost use Rattle.toml.specs.View.{view, table_view};
ghost use Rattle.settings.specs.Faults.{fault_of, IsFault};
ghost use Rattle.settings.specs.Library.{tables_of, IsNamedTable};

use crate::entries::{check_keys_in, members, needed_in, part, refused_value_in};
use crate::keys::Keys;
use crate::{Name, SetFault};
use sbox_table::{NamedTable, Table};
use std::alloc::{AllocError, Global};
use toml::{Table as Entries, Value};

fn count_of_value(value: &Value) -> Option<u8>
    ensures { result ≡ whole_between 1 8 (view value.now) }
{
    match value.as_integer() {
        Some(n) => {
            if 1 <= n && n <= 8 {
                Some(n as u8)
            } else {
                None
            }
        }
        None => None,
    }
}

// How many inputs or outputs a table has, from 1 to 8.
fn count_key(alloc: Global, entry: &Entries, name: &str, key: &str) -> Result<u8, SetFault>
    ensures ok { IfOk result (λ count.
        needed (dotted (dotted (codes "sbox") name.now) key.now) key.now (whole_between 1 8) (table_view entry.now) ≡ Ok count) }
    ensures err { IfErr result (λ e.
        IsFault (needed (dotted (dotted (codes "sbox") name.now) key.now) key.now (whole_between 1 8) (table_view entry.now)) (fault_of e)) }
    ensures within { IfOk result (λ count. (1 ≤ count) × (count ≤ 8)) }
{
    let value = needed_in(alloc, entry, "sbox", name, key)?;
    match count_of_value(value) {
        Some(count) => Ok(count),
        None => Err(refused_value_in(alloc, "sbox", name, key)),
    }
}

// The outputs at one number that the inputs spell: bit j is output j.
fn row(value: &Value, outs: u8) -> Option<u16>
    requires { outs ≤ 8 }
    ensures { result ≡ whole_between 0 (2 ^ outs - 1) (view value.now) }
{
    let most: u16 = (1 << outs) - 1;
    match value.as_integer() {
        Some(n) => {
            if 0 <= n && n <= i64::from(most) {
                Some(n as u16)
            } else {
                None
            }
        }
        None => None,
    }
}

fn rows(alloc: Global, values: &[Value], outs: u8) -> Result<Option<Vec<u16>>, AllocError>
    requires { outs ≤ 8 }
    ensures { IfOk result (λ rows. option_map (λ rows. rows.items) rows
        ≡ each_gives (whole_between 0 (2 ^ outs - 1)) (map view values.now)) }
{
    let mut rows = Vec::new(alloc);
    for value in values {
        match row(value, outs) {
            Some(row) => rows.push(row)?,
            None => return Ok(None),
        }
    }
    Ok(Some(rows))
}

// A row for each number that the inputs spell.
fn rows_of_value(
    alloc: Global,
    value: &Value,
    ins: u8,
    outs: u8,
) -> Result<Option<Vec<u16>>, AllocError>
    requires ins { ins ≤ 8 }
    requires outs { outs ≤ 8 }
    ensures { IfOk result (λ rows. option_map (λ rows. rows.items) rows ≡ values_of ins outs (view value.now)) }
{
    match value.as_array() {
        Some(values) => {
            if values.len() == 1 << ins {
                rows(alloc, values, outs)
            } else {
                Ok(None)
            }
        }
        None => Ok(None),
    }
}

fn rows_key(
    alloc: Global,
    entry: &Entries,
    name: &str,
    ins: u8,
    outs: u8,
) -> Result<Vec<u16>, SetFault>
    requires ins { ins ≤ 8 }
    requires outs { outs ≤ 8 }
    ensures ok { IfOk result (λ rows.
        needed (dotted (dotted (codes "sbox") name.now) (codes "values")) (codes "values") (values_of ins outs) (table_view entry.now) ≡ Ok rows.items) }
    ensures err { IfErr result (λ e.
        IsFault (needed (dotted (dotted (codes "sbox") name.now) (codes "values")) (codes "values") (values_of ins outs) (table_view entry.now)) (fault_of e)) }
{
    let value = needed_in(alloc, entry, "sbox", name, "values")?;
    match rows_of_value(alloc, value, ins, outs)? {
        Some(rows) => Ok(rows),
        None => Err(refused_value_in(alloc, "sbox", name, "values")),
    }
}

// The table of an entry, whose keys are tested in this order.
fn table(alloc: Global, name: &str, value: &Value) -> Result<NamedTable, SetFault>
    ensures ok { IfOk result (λ t. sbox_entry (name.now, view value.now) ≡ Ok (named_table_of t)) }
    ensures valid { IfOk result (λ t. IsNamedTable (named_table_of t)) }
    ensures err { IfErr result (λ e. IsFault (sbox_entry (name.now, view value.now)) (fault_of e)) }
{
    let entry = members(alloc, "sbox", name, value)?;
    let ins = count_key(alloc, entry, name, "inputs")?;
    let outs = count_key(alloc, entry, name, "outputs")?;
    let rows = rows_key(alloc, entry, name, ins, outs)?;
    check_keys_in(alloc, entry, "sbox", name, Keys::Sbox)?;
    let name = Name::new(alloc, name.as_bytes())?;
    Ok(NamedTable {
        name,
        table: Table { ins, outs, rows },
    })
}

// The tables of entries, which stand in byte order of their names.
fn tables(alloc: Global, entries: &Entries) -> Result<Vec<NamedTable>, SetFault>
    ensures ok { IfOk result (λ ts.
        all_of sbox_entry (member_list (table_view entries.now)) ≡ Ok (map named_table_of ts.items)) }
    ensures valid { IfOk result (λ ts. AllByRecursion IsNamedTable (map named_table_of ts.items)) }
    ensures order { IfOk result (λ ts. IsStrictlySortedBy (slice_cmp nat_cmp) (map (λ t. t.name) ts.items)) }
    ensures err { IfErr result (λ e.
        IsFault (all_of sbox_entry (member_list (table_view entries.now))) (fault_of e)) }
{
    let mut tables = Vec::new(alloc);
    for (name, value) in entries {
        let table = table(alloc, name.as_str(), value)?;
        tables.push(table)?;
    }
    Ok(tables)
}

/// The tables of `sbox`, in byte order of their names.
pub(crate) fn tables_key(alloc: Global, doc: &Entries) -> Result<Vec<NamedTable>, SetFault>
    ensures ok { IfOk result (λ ts. tables_of (table_view doc.now) ≡ Ok (map named_table_of ts.items)) }
    ensures valid { IfOk result (λ ts. AllByRecursion IsNamedTable (map named_table_of ts.items)) }
    ensures order { IfOk result (λ ts. IsStrictlySortedBy (slice_cmp nat_cmp) (map (λ t. t.name) ts.items)) }
    ensures err { IfErr result (λ e. IsFault (tables_of (table_view doc.now)) (fault_of e)) }
{
    match part(alloc, doc, "sbox")? {
        Some(entries) => tables(alloc, entries),
        None => Ok(Vec::new(alloc)),
    }
}
