// Whether a code is strong enough for its settings.
ghost use Rattle.std.specs.Prelude.{◌≡◌, ℕ, ◌+◌, ◌*◌, ◌<◌, ◌≤◌, ◌↔◌, IfOk, IfErr, IsOk};
ghost use Rattle.guard_spec.specs.Codes.{IsDistance, needed_distance};
ghost use Rattle.guard_spec.specs.SettingsFile.{IsSettings};
ghost use Rattle.settings.specs.Types.{mode_in};

use crate::{Mode, Settings};
use distance::distance;

/// The distance of a code, and the greater one that its settings need.
#[derive(Clone, Copy, Debug, PartialEq, Eq)]
pub struct TooSmall {
    pub d: u8,
    pub need: u8,
}

// The distance that a mode needs under a bound.
fn needed_distance_of(mode: Mode, bound: u8) -> u8
    requires { bound ≤ 16 }
    ensures { result ≡ needed_distance (mode_in mode) bound }
{
    match mode {
        Mode::Detect => bound + 1,
        Mode::Correct => 2 * bound + 1,
    }
}

/// The distance of the code, if it is at least what the mode needs under the bound. Looks at each codeword once.
pub fn strength(s: &Settings) -> Result<u8, TooSmall>
    ensures ok { IfOk result (λ d. IsDistance s.now.code d) }
    ensures enough { IfOk result (λ d. needed_distance s.now.mode s.now.bound ≤ d) }
    ensures too_small { IfErr result (λ e. IsDistance s.now.code e.d) }
    ensures need { IfErr result (λ e. e.need ≡ needed_distance s.now.mode s.now.bound) }
    ensures below { IfErr result (λ e. e.d < e.need) }
    ensures strong { (d : ℕ) → IsDistance s.now.code d
        → (IsOk result ↔ (needed_distance s.now.mode s.now.bound ≤ d)) }
    ensures valid { IsSettings s.now }
{
    let need = needed_distance_of(s.mode, s.bound);
    let (d, _) = distance(&s.code);
    if d < need {
        return Err(TooSmall { d, need });
    }
    Ok(d)
}
