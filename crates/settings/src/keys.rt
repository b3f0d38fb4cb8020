// The keys of a document.
ghost use Rattle.std.specs.Prelude.{◌≡◌, Ok, Err, IfOk, IfErr, OnOk, ok_or, option_map, string_bytes};
ghost use Rattle.netlist_spec.specs.Netlist.{stands_in};
ghost use Rattle.guard_spec.specs.SettingsFile.{missing, bad_value, unknown_key, known_keys, no_other_key};
ghost use Rattle.toml.specs.Data.{Data, get_member};
ghost use Rattle.toml.specs.View.{view, table_view};
ghost use Rattle.settings.specs.Faults.{fault_of, IsFault};
ghost use Rattle.settings.specs.Keys.{keys_in, other_key_of};

use crate::{SetFault, Text};
use std::alloc::Global;
use toml::{Table, Value};

/// The refusal of the value at a key.
pub(crate) fn refused_value(alloc: Global, key: &str) -> SetFault
    ensures { IsFault {A = Data} (Err (bad_value key.now)) (fault_of result) }
{
    match Text::new(alloc, key.as_bytes()) {
        Ok(text) => SetFault::BadValue(text),
        Err(_) => SetFault::NoMemory,
    }
}

fn refused_absence(alloc: Global, key: &str) -> SetFault
    ensures { IsFault {A = Data} (Err (missing key.now)) (fault_of result) }
{
    match Text::new(alloc, key.as_bytes()) {
        Ok(text) => SetFault::Missing(text),
        Err(_) => SetFault::NoMemory,
    }
}

fn refused_key(alloc: Global, key: &str) -> SetFault
    ensures { IsFault {A = Data} (Err (unknown_key key.now)) (fault_of result) }
{
    match Text::new(alloc, key.as_bytes()) {
        Ok(text) => SetFault::UnknownKey(text),
        Err(_) => SetFault::NoMemory,
    }
}

/// The value at a key, if the document has the key.
pub(crate) fn value_at<'a>(doc: &'a Table, key: &str) -> Option<&'a Value>
    ensures { option_map (λ value. view value.now) result ≡ get_member key.now (table_view doc.now) }
{
    doc.get(key)
}

/// The value at a key that is needed.
pub(crate) fn needed<'a>(alloc: Global, doc: &'a Table, key: &str) -> Result<&'a Value, SetFault>
    ensures ok { IfOk result (λ value.
        ok_or (get_member key.now (table_view doc.now)) (missing key.now) ≡ Ok (view value.now)) }
    ensures err { IfErr result (λ e.
        IsFault (ok_or (get_member key.now (table_view doc.now)) (missing key.now)) (fault_of e)) }
{
    match value_at(doc, key) {
        Some(value) => Ok(value),
        None => Err(refused_absence(alloc, key)),
    }
}

/// The keys that a table may have: those of the document, of an S-box or of a linear layer.
#[derive(Clone, Copy)]
pub(crate) enum Keys {
    Document,
    Sbox,
    Linear,
}

// Whether the key is one of these.
fn is_known(keys: Keys, key: &str) -> bool
    ensures { result ≡ stands_in key.now (keys_in keys) }
{
    match keys {
        Keys::Document => {
            key == "mode"
                || key == "bound"
                || key == "check"
                || key == "state_words"
                || key == "output_words"
                || key == "sbox"
                || key == "linear"
        }
        Keys::Sbox => key == "inputs" || key == "outputs" || key == "values",
        Keys::Linear => key == "rows",
    }
}

/// The first other key in byte order, which is the order of the table.
pub(crate) fn other_key(table: &Table, keys: Keys) -> Option<&String>
    ensures { option_map (λ key. string_bytes key.now) result ≡ other_key_of (keys_in keys) (table_view table.now) }
{
    table.keys().find(|key| !is_known(keys, key.as_str()))
}

/// Refuses a document with another key.
pub(crate) fn check_keys(alloc: Global, doc: &Table) -> Result<(), SetFault>
    ensures ok { OnOk result (no_other_key (λ key. key) known_keys (table_view doc.now) ≡ Ok tt) }
    ensures err { IfErr result (λ e.
        IsFault (no_other_key (λ key. key) known_keys (table_view doc.now)) (fault_of e)) }
{
    match other_key(doc, Keys::Document) {
        None => Ok(()),
        Some(key) => Err(refused_key(alloc, key.as_str())),
    }
}
