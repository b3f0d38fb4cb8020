// The settings file as a whole.
ghost use Rattle.std.specs.Prelude.{◌≡◌, Ok, Some, None, IfOk, IfErr, map};
ghost use Rattle.std.specs.Cmp.Lexicographic.{slice_cmp};
ghost use Rattle.std.specs.List.Sorted.{IsStrictlySortedBy};
ghost use Rattle.std.specs.Ordering.{nat_cmp};
ghost use Rattle.netlist_spec.specs.Covers.{IsLibrary};
ghost use Rattle.guard_spec.specs.SettingsFile.{IsSettings, settings_of, settings_of_bytes};
ghost use Rattle.toml.specs.Parse.{parse_document};
ghost use Rattle.toml.specs.View.{table_view};
ghost use Rattle.settings.specs.Faults.{fault_of, IsFault, IsNoDocument};
ghost use Rattle.settings.specs.Library.{library_of};
ghost use Rattle.settings.specs.Types.{library_in};

use crate::keys::check_keys;
use crate::linears::linears_key;
use crate::matrix::check_key;
use crate::scalars::{bound_key, mode_key};
use crate::tables::tables_key;
use crate::words::words_key;
use crate::{SetFault, Settings};
use linear_layer::NamedLinear;
use sbox_table::NamedTable;
use std::alloc::Global;
use toml::Table;

fn document(alloc: Global, text: &str) -> Result<Table, SetFault>
    ensures ok { IfOk result (λ doc. parse_document text.now ≡ Some (table_view doc)) }
    ensures err { IfErr result (λ e. IsNoDocument (parse_document text.now) (fault_of e)) }
{
    match toml::table_from_str(alloc, text) {
        Ok(doc) => Ok(doc),
        Err(error) => {
            if error.is_memory() {
                Err(SetFault::NoMemory)
            } else {
                Err(SetFault::NotToml)
            }
        }
    }
}

// The tables and the layers of a document.
fn library(alloc: Global, doc: &Table) -> Result<(Vec<NamedTable>, Vec<NamedLinear>), SetFault>
    ensures ok { IfOk result (λ l. library_of (table_view doc.now) ≡ Ok (library_in l.0 l.1)) }
    ensures valid { IfOk result (λ l. IsLibrary (library_in l.0 l.1)) }
    ensures table_order { IfOk result (λ l. IsStrictlySortedBy (slice_cmp nat_cmp) (map (λ t. t.name) l.0.items)) }
    ensures linear_order { IfOk result (λ l. IsStrictlySortedBy (slice_cmp nat_cmp) (map (λ l. l.name) l.1.items)) }
    ensures err { IfErr result (λ e. IsFault (library_of (table_view doc.now)) (fault_of e)) }
{
    let tables = tables_key(alloc, doc)?;
    let linears = linears_key(alloc, doc, &tables)?;
    Ok((tables, linears))
}

// The settings of a document. The keys are tested in this order.
fn settings(alloc: Global, doc: &Table) -> Result<Settings, SetFault>
    ensures ok { IfOk result (λ s. settings_of (table_view doc.now) ≡ Ok s) }
    ensures valid { IfOk result IsSettings }
    ensures err { IfErr result (λ e.
        IsFault (settings_of (table_view doc.now)) (fault_of e)) }
{
    let mode = mode_key(alloc, doc)?;
    let bound = bound_key(alloc, doc)?;
    let code = check_key(alloc, doc)?;
    let state_words = words_key(alloc, doc, "state_words", code.k())?;
    let output_words = words_key(alloc, doc, "output_words", code.k())?;
    let (tables, linears) = library(alloc, doc)?;
    check_keys(alloc, doc)?;
    Ok(Settings {
        mode,
        bound,
        code,
        state_words,
        output_words,
        tables,
        linears,
    })
}

/// Reads a settings file, a TOML document in UTF-8. Its keys are `mode` (`detect` or `correct`), `bound` (1 to 16) and
/// `check` (1 to 12 texts of `0` and `1`, of one length from 1 to 16), and it may have `state_words` and
/// `output_words`, arrays of arrays of 1 to k names, and `sbox` and `linear`, tables of entries by name, of 1 to 255
/// bytes. An entry of `sbox` has `inputs` and `outputs` (1 to 8) and `values` (one for each number that the inputs
/// spell), and one of `linear` has `rows` (1 to 128 texts of `0` and `1`, of one length from 1 to 128) and a name that
/// no entry of `sbox` has. Keys are tested in this order, entries in byte order of their names, and other keys last.
pub fn read(alloc: Global, bytes: &[u8]) -> Result<Settings, SetFault>
    ensures ok { IfOk result (λ s. settings_of_bytes bytes.now ≡ Ok s) }
    ensures valid { IfOk result IsSettings }
    ensures err { IfErr result (λ e. IsFault (settings_of_bytes bytes.now) (fault_of e)) }
{
    match std::str::from_utf8(bytes) {
        Ok(text) => {
            let doc = document(alloc, text)?;
            settings(alloc, &doc)
        }
        Err(_) => Err(SetFault::NotToml),
    }
}
