// What is kept of the bits of a net: at most the first two.
ghost use Rattle.std.specs.Prelude.{◌≡◌};
ghost use Rattle.netlist_spec.specs.CellBits.{stands_before as stands_before_of};
ghost use Rattle.gate_net.specs.Bit.{bit_of};
ghost use Rattle.audit_laws.specs.FirstBits.{merged as merged_of, with_bit as with_bit_of};
ghost use Rattle.independence_audit.specs.Kept.{first_bits};

use gate_net::Bit;

// No bit, exactly one, or the first two of several: latches before outputs, each by number.
#[derive(Clone, Copy, Debug)]
pub(crate) enum Kept {
    NoBit,
    OneBit(Bit),
    TwoBits(Bit, Bit),
}

fn stands_before(a: Bit, b: Bit) -> bool
    ensures { result ≡ stands_before_of (bit_of a) (bit_of b) }
{
    match (a, b) {
        (Bit::Latch(i), Bit::Latch(j)) => i < j,
        (Bit::Latch(_), Bit::Output(_)) => true,
        (Bit::Output(_), Bit::Latch(_)) => false,
        (Bit::Output(i), Bit::Output(j)) => i < j,
    }
}

// One more bit beside one.
fn beside_one(a: Bit, bit: Bit) -> Kept
    ensures { first_bits result ≡ with_bit_of (bit_of bit) (first_bits (Kept.OneBit a)) }
{
    if stands_before(bit, a) {
        Kept::TwoBits(bit, a)
    } else if stands_before(a, bit) {
        Kept::TwoBits(a, bit)
    } else {
        Kept::OneBit(a)
    }
}

// One more bit beside two.
fn beside_two(a: Bit, b: Bit, bit: Bit) -> Kept
    ensures { first_bits result ≡ with_bit_of (bit_of bit) (first_bits (Kept.TwoBits a b)) }
{
    if stands_before(bit, a) {
        return Kept::TwoBits(bit, a);
    }
    let behind = stands_before(a, bit);
    let between = stands_before(bit, b);
    if behind & between {
        Kept::TwoBits(a, bit)
    } else {
        Kept::TwoBits(a, b)
    }
}

impl Kept {
    // With one more bit, which may be there already.
    pub(crate) fn with_bit(self, bit: Bit) -> Kept
        ensures { first_bits result ≡ with_bit_of (bit_of bit) (first_bits self) }
    {
        match self {
            Kept::NoBit => Kept::OneBit(bit),
            Kept::OneBit(a) => beside_one(a, bit),
            Kept::TwoBits(a, b) => beside_two(a, b, bit),
        }
    }

    // With the bits that are kept of another net.
    pub(crate) fn merged(self, other: Kept) -> Kept
        ensures { first_bits result ≡ merged_of (first_bits self) (first_bits other) }
    {
        match other {
            Kept::NoBit => self,
            Kept::OneBit(a) => self.with_bit(a),
            Kept::TwoBits(a, b) => self.with_bit(a).with_bit(b),
        }
    }
}
