// Rows of bits, as texts of `0` and `1`.
ghost use Rattle.std.specs.Prelude.{◌≡◌, ◌≤◌, ◌<◌, ◌^◌, length, option_map, IfSome};
ghost use Rattle.guard_spec.specs.Codes.{bits_of};
ghost use Rattle.netlist_spec.specs.Digits.{bit_of_char, bits_of_text};
ghost use Rattle.toml.specs.View.{view};
ghost use Rattle.settings.specs.Matrix.{row_at, text_length};

use toml::Value;

fn bit(c: u8) -> Option<bool>
    ensures { result ≡ bit_of_char c }
{
    match c {
        b'0' => Some(false),
        b'1' => Some(true),
        _ => None,
    }
}

// The number whose bit j is character j of a text of `0` and `1`.
fn row_number(text: &[u8]) -> Option<u128>
    requires { length text.now ≤ 128 }
    ensures bits { option_map (bits_of (length text.now)) result ≡ bits_of_text text.now }
    ensures within { IfSome result (λ row. row < 2 ^ length text.now) }
{
    let mut row = 0;
    for (j, c) in text.iter().enumerate() {
        let bit = bit(*c)?;
        if bit {
            row = 1 << j | row;
        }
    }
    Some(row)
}

/// The row of a text of so many characters: bit j of the number is character j.
pub(crate) fn row(value: &Value, width: usize) -> Option<u128>
    requires { width ≤ 128 }
    ensures bits { option_map (bits_of width) result ≡ row_at width (view value.now) }
    ensures within { IfSome result (λ row. row < 2 ^ width) }
{
    match value.as_str() {
        Some(text) => {
            if text.len() == width {
                row_number(text.as_bytes())
            } else {
                None
            }
        }
        None => None,
    }
}

/// The number of characters of a text.
pub(crate) fn text_len(value: &Value) -> Option<usize>
    ensures { result ≡ text_length (view value.now) }
{
    match value.as_str() {
        Some(text) => Some(text.len()),
        None => None,
    }
}
