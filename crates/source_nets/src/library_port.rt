// The ports of library entries: a letter and a number.
ghost use Rattle.std.specs.Prelude.{◌≡◌, ◌≢◌, ℕ, ◌<◌, ◌≤◌, decimal as decimal_text, IfSome, IfNone};
ghost use Rattle.netlist_spec.specs.Netlist.{stands_in};
ghost use Rattle.netlist_spec.specs.Placed.{numbered_ports};

use imp_text::decimal;

// No entry has more inputs or outputs.
const MOST_PORTS: u32 = 128;

/// The number that is written as these digits, without leading zeros, if it is below 128, the most ports that an entry has.
pub fn number_of(digits: &[u8]) -> Option<u32>
    ensures written { IfSome result (λ n. decimal_text n ≡ digits.now) }
    ensures none { IfNone result ((n : ℕ) → n < 128 → decimal_text n ≢ digits.now) }
{
    let number = decimal(digits, MOST_PORTS - 1)?;
    if digits.len() > 1 && digits[0] == b'0' {
        return None;
    }
    Some(number)
}

/// Whether a name is the letter and the number of one of so many ports.
pub(crate) fn is_numbered(letter: u8, count: usize, name: &[u8]) -> bool
    requires { count ≤ 128 }
    ensures { result ≡ stands_in name.now (numbered_ports letter count) }
{
    if name.is_empty() || name[0] != letter {
        return false;
    }
    match number_of(&name[1..]) {
        Some(number) => (number as usize) < count,
        None => false,
    }
}
