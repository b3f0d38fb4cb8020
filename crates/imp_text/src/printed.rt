// Names as lines of errors and reports print them.
ghost use Rattle.std.specs.Prelude.{◌≡◌, ◌<◌};
ghost use Rattle.netlist_spec.specs.Escapes.{escape as escape_of, hex_digit as hex_digit_of};

use arrayvec::ArrayVec;

/// A byte of a name as it is printed: from `!` to `~` other than a backslash as it is, each other one as `\x` and
/// two hexadecimal digits.
pub fn escape(b: u8) -> ArrayVec<u8, 4>
    ensures { result.items ≡ escape_of b }
{
    let mut printed = ArrayVec::new();
    if matches!(b, b'!'..=b'~') && b != b'\\' {
        printed.push(b);
    } else {
        printed.push(b'\\');
        printed.push(b'x');
        printed.push(hex_digit(b / 16));
        printed.push(hex_digit(b % 16));
    }
    printed
}

fn hex_digit(n: u8) -> u8
    requires { n < 16 }
    ensures { result ≡ hex_digit_of n }
{
    if n < 10 { b'0' + n } else { b'a' - 10 + n }
}
