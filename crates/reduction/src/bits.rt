// Bits of numbers.
ghost use Rattle.std.specs.Prelude.{◌≡◌, ◌<◌};
ghost use Rattle.netlist_spec.specs.Covers.{has_bit};

/// Whether bit `i` of the number is 1.
pub fn bit(number: u128, i: usize) -> bool
    requires { i < 128 }
    ensures { result ≡ has_bit number i }
{
    number >> i & 1 == 1
}
