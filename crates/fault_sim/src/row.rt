// A row with a bit for each net.
ghost use Rattle.std.specs.Prelude.{◌≡◌, ◌<◌, length, map, All};
ghost use Rattle.imp_text.specs.declared.names.NameId.{NameId as Id};
ghost use Rattle.fault_sim.specs.declared.row.LatchCell.{LatchCell as Latch};
ghost use Rattle.fault_sim.specs.Gates.{AreGates, IsGateWithin, bit_in, numbered, put_gates};
ghost use Rattle.fault_sim.specs.Row.{put_bits, put_latches};

use crate::faults::shown;
use crate::gates::Gates;
use blif_read::NameId;

// A latch: the net that it shows, the net that it stores, and the bit that it starts with.
#[derive(Clone, Copy, Debug)]
pub(crate) struct LatchCell {
    pub(crate) q: NameId,
    pub(crate) d: NameId,
    pub(crate) init: bool,
}

// Puts the bits of some nets into the row.
pub(crate) fn put_inputs(row: &mut [bool], inputs: &[NameId], x: &[bool])
    requires nets { All (λ (id : Id). id.0 < length row.old) inputs.now }
    requires bits { length x.now ≡ length inputs.now }
    ensures { row.new ≡ put_bits row.old inputs.now x.now }
{
    for (i, id) in inputs.iter().enumerate() {
        row[id.0 as usize] = x[i];
    }
}

// Puts what the latches show into the row.
pub(crate) fn put_stored(
    row: &mut [bool],
    forced: &[Option<bool>],
    latches: &[LatchCell],
    stored: &[bool],
)
    requires nets { All (λ (l : Latch). l.q.0 < length row.old) latches.now }
    requires forced { length forced.now ≡ length row.old }
    requires bits { length stored.now ≡ length latches.now }
    ensures { row.new ≡ put_latches forced.now row.old latches.now stored.now }
{
    for (i, latch) in latches.iter().enumerate() {
        row[latch.q.0 as usize] = shown(forced, latch.q, stored[i]);
    }
}

// Puts the bits of one cycle into the row: data inputs, latches, and gates one after the other.
pub(crate) fn fill_row(
    row: &mut [bool],
    forced: &[Option<bool>],
    inputs: &[NameId],
    x: &[bool],
    latches: &[LatchCell],
    stored: &[bool],
    gates: &Gates,
)
    requires inputs { All (λ (id : Id). id.0 < length row.old) inputs.now }
    requires x { length x.now ≡ length inputs.now }
    requires latches { All (λ (l : Latch). l.q.0 < length row.old) latches.now }
    requires stored { length stored.now ≡ length latches.now }
    requires are_gates { AreGates gates.now }
    requires gates { All (IsGateWithin (length row.old)) (numbered gates.now) }
    requires forced { length forced.now ≡ length row.old }
    ensures { row.new ≡ put_gates forced.now (put_latches forced.now (put_bits row.old inputs.now x.now) latches.now stored.now) (numbered gates.now) }
{
    put_inputs(row, inputs, x);
    put_stored(row, forced, latches, stored);
    gates.put(forced, row);
}

// The bits of some nets.
pub(crate) fn read_nets(row: &[bool], nets: &[NameId], out: &mut [bool])
    requires nets { All (λ (id : Id). id.0 < length row.now) nets.now }
    requires out { length out.old ≡ length nets.now }
    ensures { out.new ≡ map (bit_in row.now) nets.now }
{
    for (i, id) in nets.iter().enumerate() {
        out[i] = row[id.0 as usize];
    }
}

// What the latches store.
pub(crate) fn store(row: &[bool], latches: &[LatchCell], stored: &mut [bool])
    requires nets { All (λ (l : Latch). l.d.0 < length row.now) latches.now }
    requires stored { length stored.old ≡ length latches.now }
    ensures { stored.new ≡ map (λ (l : Latch). bit_in row.now l.d) latches.now }
{
    for (i, latch) in latches.iter().enumerate() {
        stored[i] = row[latch.d.0 as usize];
    }
}

// Each latch is back at its init.
pub(crate) fn start(latches: &[LatchCell], stored: &mut [bool])
    requires { length stored.old ≡ length latches.now }
    ensures { stored.new ≡ map (λ (l : Latch). l.init) latches.now }
{
    for (i, latch) in latches.iter().enumerate() {
        stored[i] = latch.init;
    }
}
