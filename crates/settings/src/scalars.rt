// The mode and the bound.
ghost use Rattle.std.specs.Prelude.{◌≡◌, ◌≤◌, Ok, IfOk, IfErr, option_map, codes};
ghost use Rattle.guard_spec.specs.SettingsFile.{needed, mode_of, mode_named, whole_between};
ghost use Rattle.toml.specs.View.{view, table_view};
ghost use Rattle.settings.specs.Faults.{fault_of, IsFault};
ghost use Rattle.settings.specs.Types.{mode_in};

use crate::keys::{needed, refused_value};
use crate::{Mode, SetFault};
use std::alloc::Global;
use toml::{Table, Value};

fn mode_of_text(text: &str) -> Option<Mode>
    ensures { option_map mode_in result ≡ mode_named text.now }
{
    if text == "detect" {
        Some(Mode::Detect)
    } else if text == "correct" {
        Some(Mode::Correct)
    } else {
        None
    }
}

fn mode_of_value(value: &Value) -> Option<Mode>
    ensures { option_map mode_in result ≡ mode_of (view value.now) }
{
    match value.as_str() {
        Some(text) => mode_of_text(text),
        None => None,
    }
}

/// What `mode` says.
pub(crate) fn mode_key(alloc: Global, doc: &Table) -> Result<Mode, SetFault>
    ensures ok { IfOk result (λ mode. needed (codes "mode") (codes "mode") mode_of (table_view doc.now) ≡ Ok (mode_in mode)) }
    ensures err { IfErr result (λ e. IsFault (needed (codes "mode") (codes "mode") mode_of (table_view doc.now)) (fault_of e)) }
{
    let value = needed(alloc, doc, "mode")?;
    match mode_of_value(value) {
        Some(mode) => Ok(mode),
        None => Err(refused_value(alloc, "mode")),
    }
}

fn bound_of_value(value: &Value) -> Option<u8>
    ensures { result ≡ whole_between 1 16 (view value.now) }
{
    match value.as_integer() {
        Some(n) => {
            if 1 <= n && n <= 16 {
                Some(n as u8)
            } else {
                None
            }
        }
        None => None,
    }
}

/// What `bound` says, from 1 to 16.
pub(crate) fn bound_key(alloc: Global, doc: &Table) -> Result<u8, SetFault>
    ensures ok { IfOk result (λ bound. needed (codes "bound") (codes "bound") (whole_between 1 16) (table_view doc.now) ≡ Ok bound) }
    ensures err { IfErr result (λ e. IsFault (needed (codes "bound") (codes "bound") (whole_between 1 16) (table_view doc.now)) (fault_of e)) }
    ensures within { IfOk result (λ bound. (1 ≤ bound) × (bound ≤ 16)) }
{
    let value = needed(alloc, doc, "bound")?;
    match bound_of_value(value) {
        Some(bound) => Ok(bound),
        None => Err(refused_value(alloc, "bound")),
    }
}
