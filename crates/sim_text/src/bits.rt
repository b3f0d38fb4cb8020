// A list of bits, eight to a byte.
ghost use Rattle.std.specs.Prelude.{◌≡◌, ◌+◌, ◌<◌, ◌≤◌, ◌^◌, [], ◌∷◌, ◌++◌, length, get_or, slice_range, cond, false, OnOk};
ghost use Rattle.netlist_spec.specs.Covers.{has_bit as has_bit_of};

use std::alloc::{AllocError, Global};
use std::marker::Model;

// Bit i stands at place i mod 8 of byte i / 8.
#[derive(Drop)]
pub(crate) struct Bits {
    bytes: Vec<u8>,
    len: usize,
}

impl Model for Bits {
    ghost use Rattle.std.specs.Prelude.{List, Bool};
    ghost use Rattle.sim_text.specs.Packed.{unpacked, IsPacked};

    ghost Value = { List Bool };

    ghost view = { λ s. unpacked s.len s.bytes.items };

    ghost invariant = { λ s. IsPacked s.len s.bytes.items };
}

// The byte, whose places from `place` on are 0, with this bit there.
fn with_bit(byte: u8, place: usize, bit: bool) -> u8
    requires inside { place < 8 }
    requires rest { byte < 2 ^ place }
    ensures { result ≡ cond bit (byte + 2 ^ place) byte }
{
    if bit { byte | 1 << place } else { byte }
}

fn has_bit(byte: u8, place: usize) -> bool
    requires { place < 8 }
    ensures { result ≡ has_bit_of byte place }
{
    (byte >> place) & 1 == 1
}

impl Bits {
    // No bits.
    pub(crate) fn new(alloc: Global) -> Bits
        ensures { result ≡ [] }
    {
        Bits {
            bytes: Vec::new(alloc),
            len: 0,
        }
    }

    pub(crate) fn push(&mut self, bit: bool) -> Result<(), AllocError>
        requires { length self.old < 2 ^ 62 }
        ensures { OnOk result (self.new ≡ self.old ++ bit ∷ []) }
    {
        let len = self.len;
        if len % 8 == 0 {
            self.bytes.push(0)?;
        }
        self.bytes[len / 8] = with_bit(self.bytes[len / 8], len % 8, bit);
        self.len = len + 1;
        Ok(())
    }

    fn get(&self, i: usize) -> bool
        requires { i < length self.now }
        ensures { result ≡ get_or self.now i false }
    {
        has_bit(self.bytes[i / 8], i % 8)
    }

    // Puts the bits from `start` on into `x`.
    pub(crate) fn copy_to(&self, start: usize, x: &mut [bool])
        requires inside { start + length x.old ≤ length self.now }
        requires few { length self.now < 2 ^ 62 }
        ensures { x.new ≡ slice_range self.now start (start + length x.old) }
    {
        for (i, bit) in x.iter_mut().enumerate() {
            *bit = self.get(start + i);
        }
    }
}
