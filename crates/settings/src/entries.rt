// The entries of the library: where they stand in the document, and their keys.
ghost use Rattle.std.specs.Prelude.{◌≡◌, ◌≤◌, Ok, Err, IfOk, IfErr, OnOk, ok_or, option_map, length, codes};
ghost use Rattle.guard_spec.specs.SettingsFile.{missing, bad_value, unknown_key, as_members, dotted, entry_members, no_other_key, optional};
ghost use Rattle.toml.specs.Data.{Data, get_member};
ghost use Rattle.toml.specs.View.{view, table_view};
ghost use Rattle.settings.specs.Faults.{fault_of, IsFault};
ghost use Rattle.settings.specs.Keys.{keys_in};

use crate::keys::{Keys, other_key, refused_value, value_at};
use crate::{SetFault, Text};
use std::alloc::{AllocError, Global};
use toml::{Table, Value};

const MOST_BYTES: usize = 255;

/// The entries of `sbox` or of `linear`, if the document has that key.
pub(crate) fn part<'a>(
    alloc: Global,
    doc: &'a Table,
    kind: &str,
) -> Result<Option<&'a Table>, SetFault>
    ensures ok { IfOk result (λ part.
        optional kind.now kind.now as_members (table_view doc.now) ≡ Ok (option_map (λ t. table_view t.now) part)) }
    ensures err { IfErr result (λ e.
        IsFault (optional kind.now kind.now as_members (table_view doc.now)) (fault_of e)) }
{
    match value_at(doc, kind) {
        Some(value) => match value.as_table() {
            Some(entries) => Ok(Some(entries)),
            None => Err(refused_value(alloc, kind)),
        },
        None => Ok(None),
    }
}

// The bytes of two parts of a path, with a dot between them.
fn path(alloc: Global, first: &[u8], second: &[u8]) -> Result<Vec<u8>, AllocError>
    ensures { IfOk result (λ path. path.items ≡ dotted first.now second.now) }
{
    let mut path = first.to_vec(alloc)?;
    path.push(b'.')?;
    path.extend_from_slice(second)?;
    Ok(path)
}

fn entry_path(alloc: Global, kind: &str, name: &str) -> Result<Text, AllocError>
    ensures { IfOk result (λ path. path ≡ dotted kind.now name.now) }
{
    let bytes = path(alloc, kind.as_bytes(), name.as_bytes())?;
    Text::new(alloc, &bytes)
}

fn key_path(alloc: Global, kind: &str, name: &str, key: &str) -> Result<Text, AllocError>
    ensures { IfOk result (λ path. path ≡ dotted (dotted kind.now name.now) key.now) }
{
    let entry = path(alloc, kind.as_bytes(), name.as_bytes())?;
    let bytes = path(alloc, &entry, key.as_bytes())?;
    Text::new(alloc, &bytes)
}

/// The refusal of an entry.
pub(crate) fn refused_entry(alloc: Global, kind: &str, name: &str) -> SetFault
    ensures { IsFault {A = Data} (Err (bad_value (dotted kind.now name.now))) (fault_of result) }
{
    match entry_path(alloc, kind, name) {
        Ok(path) => SetFault::BadValue(path),
        Err(_) => SetFault::NoMemory,
    }
}

/// The refusal of the value at a key of an entry.
pub(crate) fn refused_value_in(alloc: Global, kind: &str, name: &str, key: &str) -> SetFault
    ensures { IsFault {A = Data} (Err (bad_value (dotted (dotted kind.now name.now) key.now))) (fault_of result) }
{
    match key_path(alloc, kind, name, key) {
        Ok(path) => SetFault::BadValue(path),
        Err(_) => SetFault::NoMemory,
    }
}

fn refused_absence_in(alloc: Global, kind: &str, name: &str, key: &str) -> SetFault
    ensures { IsFault {A = Data} (Err (missing (dotted (dotted kind.now name.now) key.now))) (fault_of result) }
{
    match key_path(alloc, kind, name, key) {
        Ok(path) => SetFault::Missing(path),
        Err(_) => SetFault::NoMemory,
    }
}

fn refused_key_in(alloc: Global, kind: &str, name: &str, key: &str) -> SetFault
    ensures { IsFault {A = Data} (Err (unknown_key (dotted (dotted kind.now name.now) key.now))) (fault_of result) }
{
    match key_path(alloc, kind, name, key) {
        Ok(path) => SetFault::UnknownKey(path),
        Err(_) => SetFault::NoMemory,
    }
}

/// The keys of an entry, whose name has 1 to 255 bytes.
pub(crate) fn members<'a>(
    alloc: Global,
    kind: &str,
    name: &str,
    value: &'a Value,
) -> Result<&'a Table, SetFault>
    ensures ok { IfOk result (λ entry.
        entry_members (dotted kind.now name.now) name.now (view value.now) ≡ Ok (table_view entry.now)) }
    ensures some { OnOk result (1 ≤ length name.now) }
    ensures short { OnOk result (length name.now ≤ 255) }
    ensures err { IfErr result (λ e.
        IsFault (entry_members (dotted kind.now name.now) name.now (view value.now)) (fault_of e)) }
{
    if name.is_empty() || name.len() > MOST_BYTES {
        return Err(refused_entry(alloc, kind, name));
    }
    match value.as_table() {
        Some(entry) => Ok(entry),
        None => Err(refused_entry(alloc, kind, name)),
    }
}

/// The value at a key of an entry, which it needs.
pub(crate) fn needed_in<'a>(
    alloc: Global,
    entry: &'a Table,
    kind: &str,
    name: &str,
    key: &str,
) -> Result<&'a Value, SetFault>
    ensures ok { IfOk result (λ value.
        ok_or (get_member key.now (table_view entry.now)) (missing (dotted (dotted kind.now name.now) key.now)) ≡ Ok (view value.now)) }
    ensures err { IfErr result (λ e.
        IsFault (ok_or (get_member key.now (table_view entry.now)) (missing (dotted (dotted kind.now name.now) key.now))) (fault_of e)) }
{
    match value_at(entry, key) {
        Some(value) => Ok(value),
        None => Err(refused_absence_in(alloc, kind, name, key)),
    }
}

/// Refuses an entry with another key.
pub(crate) fn check_keys_in(
    alloc: Global,
    entry: &Table,
    kind: &str,
    name: &str,
    keys: Keys,
) -> Result<(), SetFault>
    ensures ok { OnOk result
        (no_other_key (dotted (dotted kind.now name.now)) (keys_in keys) (table_view entry.now) ≡ Ok tt) }
    ensures err { IfErr result (λ e.
        IsFault (no_other_key (dotted (dotted kind.now name.now)) (keys_in keys) (table_view entry.now)) (fault_of e)) }
{
    match other_key(entry, keys) {
        None => Ok(()),
        Some(key) => Err(refused_key_in(alloc, kind, name, key.as_str())),
    }
}
