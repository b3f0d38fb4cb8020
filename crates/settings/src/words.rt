// Words over latches and over outputs, as names.
ghost use Rattle.std.specs.Prelude.{◌≡◌, ◌&&◌, nat_le, Ok, map, option_map, IfOk, IfErr};
ghost use Rattle.netlist_spec.specs.Digits.{each_gives};
ghost use Rattle.guard_spec.specs.SettingsFile.{name_of, word_of, words_of, optional};
ghost use Rattle.toml.specs.View.{view, table_view};
ghost use Rattle.settings.specs.Faults.{fault_of, IsFault};
ghost use Rattle.settings.specs.Types.{names_in, words_in};

use crate::keys::{refused_value, value_at};
use crate::{Name, SetFault};
use std::alloc::{AllocError, Global};
use toml::{Table, Value};

const MOST_BYTES: usize = 255;

// The name that a text of 1 to 255 bytes is.
fn name(alloc: Global, value: &Value) -> Result<Option<Name>, AllocError>
    ensures { IfOk result (λ name. name ≡ name_of (view value.now)) }
{
    match value.as_str() {
        Some(text) => {
            if text.is_empty() || text.len() > MOST_BYTES {
                return Ok(None);
            }
            Ok(Some(Name::new(alloc, text.as_bytes())?))
        }
        None => Ok(None),
    }
}

fn names(alloc: Global, values: &[Value]) -> Result<Option<Vec<Name>>, AllocError>
    ensures { IfOk result (λ names.
        option_map names_in names ≡ each_gives name_of (map view values.now)) }
{
    let mut names = Vec::new(alloc);
    for value in values {
        match name(alloc, value)? {
            Some(name) => names.push(name)?,
            None => return Ok(None),
        }
    }
    Ok(Some(names))
}

// Whether a word may have so many names.
fn is_word_len(len: usize, k: u8) -> bool
    ensures { result ≡ (nat_le 1 len && nat_le len k) }
{
    1 <= len && len <= k as usize
}

// The 1 to k names of a word.
fn word(alloc: Global, value: &Value, k: u8) -> Result<Option<Vec<Name>>, AllocError>
    ensures { IfOk result (λ word. option_map names_in word ≡ word_of k (view value.now)) }
{
    match value.as_array() {
        Some(values) => {
            if is_word_len(values.len(), k) {
                names(alloc, values)
            } else {
                Ok(None)
            }
        }
        None => Ok(None),
    }
}

fn words(alloc: Global, values: &[Value], k: u8) -> Result<Option<Vec<Vec<Name>>>, AllocError>
    ensures { IfOk result (λ words.
        option_map words_in words ≡ each_gives (word_of k) (map view values.now)) }
{
    let mut words = Vec::new(alloc);
    for value in values {
        match word(alloc, value, k)? {
            Some(word) => words.push(word)?,
            None => return Ok(None),
        }
    }
    Ok(Some(words))
}

fn words_in_array(alloc: Global, value: &Value, k: u8) -> Result<Option<Vec<Vec<Name>>>, AllocError>
    ensures { IfOk result (λ words. option_map words_in words ≡ words_of k (view value.now)) }
{
    match value.as_array() {
        Some(values) => words(alloc, values, k),
        None => Ok(None),
    }
}

/// The words at a key that is not needed, each of 1 to k names.
pub(crate) fn words_key(
    alloc: Global,
    doc: &Table,
    key: &str,
    k: u8,
) -> Result<Option<Vec<Vec<Name>>>, SetFault>
    ensures ok { IfOk result (λ words.
        optional key.now key.now (words_of k) (table_view doc.now) ≡ Ok (option_map words_in words)) }
    ensures err { IfErr result (λ e.
        IsFault (optional key.now key.now (words_of k) (table_view doc.now)) (fault_of e)) }
{
    match value_at(doc, key) {
        Some(value) => match words_in_array(alloc, value, k)? {
            Some(words) => Ok(Some(words)),
            None => Err(refused_value(alloc, key)),
        },
        None => Ok(None),
    }
}
