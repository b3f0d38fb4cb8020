// The check matrix.
ghost use Rattle.std.specs.Prelude.{◌≡◌, ◌≤◌, ◌<◌, ◌^◌, ℕ, List, Some, Ok, length, map, option_map, is_some, All, IfSome, IfOk, IfErr};
ghost use Rattle.guard_spec.specs.Codes.{bits_of};
ghost use Rattle.netlist_spec.specs.Digits.{each_gives};
ghost use Rattle.guard_spec.specs.SettingsFile.{as_text, bit_rows, code_of};
ghost use Rattle.toml.specs.View.{view, table_view};
ghost use Rattle.settings.specs.Faults.{fault_of, IsFault};
ghost use Rattle.settings.specs.Matrix.{row_at, check_of};

use crate::SetFault;
use crate::bits::{row, text_len};
use crate::keys::{needed, refused_value};
use arrayvec::ArrayVec;
use block_code::Code;
use std::alloc::Global;
use toml::{Table, Value};

const MOST_ROWS: usize = 12;

const MOST_COLUMNS: usize = 16;

// The rows, if all have so many columns.
fn rows(values: &[Value], width: usize) -> Option<ArrayVec<u32, MOST_ROWS>>
    requires columns { width ≤ 16 }
    requires rows { length values.now ≤ 12 }
    ensures bits { option_map (λ rows. map (bits_of width) rows.items) result
        ≡ each_gives (row_at width) (map view values.now) }
    ensures count { IfSome result (λ rows. length rows.items ≡ length values.now) }
    ensures within { IfSome result (λ rows. All (λ row. row < 2 ^ width) rows.items) }
{
    let mut rows = ArrayVec::new();
    for value in values {
        let row = row(value, width)?;
        rows.push(row as u32);
    }
    Some(rows)
}

// The check matrix that these texts are.
fn code(values: &[Value]) -> Option<Code>
    ensures { (texts : List (List ℕ)) → each_gives as_text (map view values.now) ≡ Some texts
        → result ≡ option_map code_of (bit_rows 12 16 texts) }
{
    if values.is_empty() || values.len() > MOST_ROWS {
        return None;
    }
    let width = text_len(&values[0])?;
    if width == 0 || width > MOST_COLUMNS {
        return None;
    }
    let rows = rows(values, width)?;
    match Code::new(rows.len() as u8, width as u8, &rows) {
        Ok(code) => Some(code),
        Err(_) => None,
    }
}

fn are_texts(values: &[Value]) -> bool
    ensures { result ≡ is_some (each_gives as_text (map view values.now)) }
{
    values.iter().all(|value| value.is_str())
}

/// The check matrix that `check` spells: text i is row i, and character j is column j.
pub(crate) fn check_key(alloc: Global, doc: &Table) -> Result<Code, SetFault>
    ensures ok { IfOk result (λ code. check_of (table_view doc.now) ≡ Ok code.rows) }
    ensures columns { IfOk result (λ code. code ≡ code_of code.rows) }
    ensures err { IfErr result (λ e. IsFault (check_of (table_view doc.now)) (fault_of e)) }
{
    let value = needed(alloc, doc, "check")?;
    match value.as_array() {
        Some(values) => {
            if !are_texts(values) {
                return Err(refused_value(alloc, "check"));
            }
            match code(values) {
                Some(code) => Ok(code),
                None => Err(SetFault::BadShape),
            }
        }
        None => Err(refused_value(alloc, "check")),
    }
}
