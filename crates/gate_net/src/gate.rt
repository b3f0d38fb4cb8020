// Nets and the gates that drive them.
ghost use Rattle.std.specs.Prelude.{◌≡◌, ◌+◌, ◌*◌, length};
ghost use Rattle.netlist_spec.specs.Covers.{has_bit};
ghost use Rattle.netlist_spec.specs.Gates.{ReadsBelow, bit_number, gate_answer};
ghost use Rattle.gate_net.specs.Gate.{gate_form};
ghost use Rattle.gate_net.specs.GateNet.{net_bit};

use std::marker::Model;

/// The number of a net: leaves first, then gates.
#[derive(Clone, Copy, Debug, Default, PartialEq, Eq)]
pub struct NetId(pub u32);

/// The answers of a gate with two inputs, in the lowest four bits: bit `2a + b` is the answer for `a` and `b`.
#[derive(Clone, Copy, Debug, PartialEq, Eq)]
pub struct Op(pub u8);

impl Model for Op {
    ghost use Rattle.std.specs.Prelude.{ℕ, ◌<◌};

    ghost Value = { ℕ };

    ghost view = { λ op. op.0 };

    ghost invariant = { λ op. op.0 < 16 };

    ghost inverse = { λ n. record { 0 = n } };
}

impl Op {
    pub const AND: Op = Op(0b1000);

    pub const OR: Op = Op(0b1110);

    pub const XOR: Op = Op(0b0110);

    /// The answer for `a` and `b`.
    pub fn answer(self, a: bool, b: bool) -> bool
        ensures { result ≡ has_bit self (2 * bit_number a + bit_number b) }
    {
        let place = 2 * u8::from(a) + u8::from(b);
        (self.0 >> place) & 1 == 1
    }
}

/// A gate, by the nets that it reads.
#[derive(Clone, Copy, Debug, PartialEq, Eq)]
pub enum Gate {
    Const(bool),
    /// A copy of a net, or its inverse.
    One { inv: bool, a: NetId },
    Two { op: Op, a: NetId, b: NetId },
}

impl Gate {
    /// The gate's answer where the nets have the bits of the row.
    pub(crate) fn answer(&self, row: &[bool]) -> bool
        requires { ReadsBelow (length row.now) (gate_form self.now) }
        ensures { result ≡ gate_answer (gate_form self.now) (net_bit row.now) }
    {
        match *self {
            Gate::Const(bit) => bit,
            Gate::One { inv, a } => row[a.0 as usize] != inv,
            Gate::Two { op, a, b } => op.answer(row[a.0 as usize], row[b.0 as usize]),
        }
    }
}
