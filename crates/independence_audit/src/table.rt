// Tables of what is kept of each net, by the numbers of nets.
ghost use Rattle.std.specs.Prelude.{◌≡◌, ◌<◌, ◌^◌, ℕ, List, [], ◌∷◌, ◌++◌, length, map, All, IfOk, IsTrue};
ghost use Rattle.netlist_spec.specs.CellBits.{Bit as SpecBit, latch_bit, output_bit};
ghost use Rattle.netlist_spec.specs.Netlist.{Name as Bytes, are_distinct};
ghost use Rattle.gate_net.specs.Bit.{bit_of};
ghost use Rattle.imp_text.specs.declared.names.NameId.{NameId as Id};
ghost use Rattle.blif_read.specs.View.{name_at};
ghost use Rattle.audit_laws.specs.FirstBits.{FirstBits, named_bits, no_bit};
ghost use Rattle.independence_audit.specs.Kept.{Keeps};
ghost use Rattle.independence_audit.specs.Table.{kind_of};

use crate::kept::Kept;
use blif_read::NameId;
use gate_net::Bit;
use std::alloc::{AllocError, Global};

// What bits are numbered.
#[derive(Clone, Copy, Debug)]
pub(crate) enum Kind {
    Latches,
    Outputs,
}

fn numbered(kind: Kind, i: u32) -> Bit
    ensures { bit_of result ≡ kind_of kind i }
{
    match kind {
        Kind::Latches => Bit::Latch(i),
        Kind::Outputs => Bit::Output(i),
    }
}

// Adds a bit of a net.
fn add(table: &mut [Kept], id: NameId, bit: Bit)
    requires { id.0 < length table.old }
    ensures { (all ks : List Bytes) (kind : ℕ → SpecBit) (kept : Bytes → FirstBits) → bit_of bit ≡ kind (length ks)
        → Keeps all table.old (λ n. named_bits kind 0 ks n (kept n)) → Keeps all table.new (λ n. named_bits kind 0 (ks ++ name_at all id ∷ []) n (kept n)) }
{
    let place = id.0 as usize;
    table[place] = table[place].with_bit(bit);
}

// Adds the bits of some nets, which are numbered from 0.
fn add_all(table: &mut [Kept], ids: &[NameId], kind: Kind)
    requires nets { All (λ (id : Id). id.0 < length table.old) ids.now }
    requires few { length ids.now < 2 ^ 32 }
    ensures { (all : List Bytes) (kept : Bytes → FirstBits) → Keeps all table.old kept
        → Keeps all table.new (λ n. named_bits (kind_of kind) 0 (map (name_at all) ids.now) n (kept n)) }
{
    for (i, id) in ids.iter().enumerate() {
        add(table, *id, numbered(kind, i as u32));
    }
}

// Adds the bits of latches, and then those of outputs.
fn add_both(table: &mut [Kept], latches: &[NameId], outputs: &[NameId])
    requires latches { All (λ (id : Id). id.0 < length table.old) latches.now }
    requires outputs { All (λ (id : Id). id.0 < length table.old) outputs.now }
    requires few { length latches.now < 2 ^ 32 }
    requires few_outputs { length outputs.now < 2 ^ 32 }
    ensures { (all : List Bytes) (kept : Bytes → FirstBits) → Keeps all table.old kept
        → Keeps all table.new (λ n. named_bits output_bit 0 (map (name_at all) outputs.now) n (named_bits latch_bit 0 (map (name_at all) latches.now) n (kept n))) }
{
    add_all(table, latches, Kind::Latches);
    add_all(table, outputs, Kind::Outputs);
}

// The table of the bits that nets have by these latches and outputs.
pub(crate) fn named_table(
    alloc: Global,
    nets: usize,
    latches: &[NameId],
    outputs: &[NameId],
) -> Result<Vec<Kept>, AllocError>
    requires latches { All (λ (id : Id). id.0 < nets) latches.now }
    requires outputs { All (λ (id : Id). id.0 < nets) outputs.now }
    requires few { length latches.now < 2 ^ 32 }
    requires few_outputs { length outputs.now < 2 ^ 32 }
    ensures { IfOk result (λ table. (all : List Bytes) → IsTrue (are_distinct all) → length all ≡ nets
        → Keeps all table.items (λ n. named_bits output_bit 0 (map (name_at all) outputs.now) n (named_bits latch_bit 0 (map (name_at all) latches.now) n no_bit))) }
{
    let mut table = vec![in alloc; Kept::NoBit; nets]?;
    add_both(table.as_mut_slice(), latches, outputs);
    Ok(table)
}
