// Sums of bits and words, up to the limit.
ghost use Rattle.std.specs.Prelude.{◌≡◌, ◌+◌, ◌<◌, ◌≤◌, ℕ, List, Vec, length, map, All, IfOk, IfSome, OnOk};
ghost use Rattle.std.specs.declared.alloc.Global.{Global as Heap};
ghost use Rattle.imp_text.specs.declared.names.NameId.{NameId as Id};
ghost use Rattle.guard_spec.specs.Codes.{data_places};
ghost use Rattle.guard_spec.specs.Plain.{AreNets};
ghost use Rattle.guard_spec.specs.Words.{Layout as GuardLayout};
ghost use Rattle.netlist_spec.specs.Models.{latch_inputs as latch_inputs_of, output_nets as output_nets_of};
ghost use Rattle.netlist_spec.specs.Netlist.{Name as Bytes};
ghost use Rattle.blif_read.specs.View.{name_at};
ghost use Rattle.plain_size.specs.Cones.{AreCones, CanWalk, Source};
ghost use Rattle.plain_size.specs.Sums.{AreWords, IsBehind, IsBit, IsOutputSum, IsStateSum, IsWord};

use crate::cones::Cones;
use crate::prices::places;
use crate::walk::{LIMIT, Walk};
use blif_read::NameId;
use block_code::Code;
use size_laws::{partial_sizes_add_up, partial_sizes_stay_below, word_costs_add_up};
use std::alloc::AllocError;

// What a bit costs above 2: its cone and its correctors. It is None where that passes the limit together with the total so far.
fn behind(
    cones: &Cones,
    walk: &mut Walk,
    net: NameId,
    total: u32,
) -> Result<Option<u32>, AllocError>
    requires cones { CanWalk cones.now }
    requires walk { length walk.old.stamps.items ≡ length cones.now.graph }
    requires net { net.0 < length cones.now.nodes.items }
    requires small { total ≤ 1000000 }
    requires fresh { All (λ s. s < total) walk.old.stamps.items }
    ensures size { length walk.new.stamps.items ≡ length walk.old.stamps.items }
    ensures stamps { OnOk result (All (λ s. s ≤ total) walk.new.stamps.items) }
    ensures small { IfOk result (λ behind. IfSome behind (λ n. total + n ≤ 1000000)) }
    ensures cost { (p : Source) → AreCones p cones.now → IfOk result (IsBehind p (name_at p.m.names net) total) }
{
    match cones.nodes[net.0 as usize] {
        Some(start) => walk.cost(&cones.graph, &cones.costs, start, total),
        None => Ok(Some(0)),
    }
}

// Adds a bit, and adds it once more for each check bit that it goes into.
fn add_bit(
    cones: &Cones,
    walk: &mut Walk,
    net: NameId,
    checks: u32,
    total: u32,
) -> Result<Option<u32>, AllocError>
    requires cones { CanWalk cones.now }
    requires walk { length walk.old.stamps.items ≡ length cones.now.graph }
    requires net { net.0 < length cones.now.nodes.items }
    requires checks { checks ≤ 32 }
    requires small { total ≤ 1000000 }
    requires fresh { All (λ s. s < total) walk.old.stamps.items }
    ensures size { length walk.new.stamps.items ≡ length walk.old.stamps.items }
    ensures fresh { IfOk result (λ sum. IfSome sum (λ t. All (λ s. s < t) walk.new.stamps.items)) }
    ensures small { IfOk result (λ sum. IfSome sum (λ t. t ≤ 1000000)) }
    ensures cost { (p : Source) → AreCones p cones.now → IfOk result (IsBit p (name_at p.m.names net) checks total) }
{
    let Some(behind) = behind(cones, walk, net, total)? else {
        return Ok(None);
    };
    let sum = total + (2 + behind) * (1 + checks);
    if sum > LIMIT {
        return Ok(None);
    }
    Ok(Some(sum))
}

// Adds the bits of a word, each of them once more for each check bit that it goes into.
fn add_word(
    cones: &Cones,
    walk: &mut Walk,
    code: &Code,
    nets: &[NameId],
    word: &[u32],
    start: u32,
) -> Result<Option<u32>, AllocError>
    requires cones { CanWalk cones.now }
    requires walk { length walk.old.stamps.items ≡ length cones.now.graph }
    requires nets { All (λ (id : Id). id.0 < length cones.now.nodes.items) nets.now }
    requires places { length word.now ≤ data_places code.now }
    requires within { All (λ i. i < length nets.now) word.now }
    requires fresh { All (λ s. s < start) walk.old.stamps.items }
    ensures size { length walk.new.stamps.items ≡ length walk.old.stamps.items }
    ensures fresh { IfOk result (λ sum. IfSome sum (λ t. All (λ s. s < t) walk.new.stamps.items)) }
    ensures small { IfOk result (λ sum. IfSome sum (λ t. t ≤ 1000000)) }
    ensures cost { (p : Source) (all some : List Bytes) → AreCones p cones.now → p.code ≡ code.now → map (name_at p.m.names) nets.now ≡ all → AreNets all word.now some
        → IfOk result (IsWord p some start) }
{
    word_costs_add_up();
    if start > LIMIT {
        return Ok(None);
    }
    let mut total = start;
    for i in 0..places(code, word) {
        let net = nets[word[i as usize] as usize];
        let checks = code.row(i).count_ones();
        match add_bit(cones, walk, net, checks, total)? {
            Some(sum) => total = sum,
            None => return Ok(None),
        }
    }
    Ok(Some(total))
}

/// Adds the state words to a total, over the nets that the latches store: their places, their bits and their check bits.
pub(crate) fn add_state(
    cones: &Cones,
    walk: &mut Walk,
    code: &Code,
    stores: &[NameId],
    words: &[Vec<u32>],
    start: u32,
) -> Result<Option<u32>, AllocError>
    requires cones { CanWalk cones.now }
    requires walk { length walk.old.stamps.items ≡ length cones.now.graph }
    requires stores { All (λ (id : Id). id.0 < length cones.now.nodes.items) stores.now }
    requires words { AreWords code.now (length stores.now) (map (λ (w : Vec ℕ Heap). w.items) words.now) }
    requires small { start ≤ 1000000 }
    requires fresh { All (λ s. s ≤ start) walk.old.stamps.items }
    ensures size { length walk.new.stamps.items ≡ length walk.old.stamps.items }
    ensures fresh { IfOk result (λ sum. IfSome sum (λ t. All (λ s. s ≤ t) walk.new.stamps.items)) }
    ensures small { IfOk result (λ sum. IfSome sum (λ t. t ≤ 1000000)) }
    ensures cost { (p : Source) (rails : ℕ) (l : GuardLayout) → AreCones p cones.now → p.code ≡ code.now → p.state ≡ l.state → map (name_at p.m.names) stores.now ≡ latch_inputs_of p.m
        → l.state ≡ map (λ (w : Vec ℕ Heap). w.items) words.now → IfOk result (IsStateSum p rails l start) }
{
    partial_sizes_add_up();
    partial_sizes_stay_below();
    let mut total = start;
    for word in words {
        let columns = u32::from(code.r());
        let latches = u32::from(places(code, word)) + columns;
        match add_word(cones, walk, code, stores, word, total + latches + columns)? {
            Some(sum) => total = sum,
            None => return Ok(None),
        }
    }
    Ok(Some(total))
}

/// Adds the output words to a total, over the output nets: their bits and their check bits.
pub(crate) fn add_outputs(
    cones: &Cones,
    walk: &mut Walk,
    code: &Code,
    nets: &[NameId],
    words: &[Vec<u32>],
    start: u32,
) -> Result<Option<u32>, AllocError>
    requires cones { CanWalk cones.now }
    requires walk { length walk.old.stamps.items ≡ length cones.now.graph }
    requires nets { All (λ (id : Id). id.0 < length cones.now.nodes.items) nets.now }
    requires words { AreWords code.now (length nets.now) (map (λ (w : Vec ℕ Heap). w.items) words.now) }
    requires small { start ≤ 1000000 }
    requires fresh { All (λ s. s ≤ start) walk.old.stamps.items }
    ensures small { IfOk result (λ sum. IfSome sum (λ t. t ≤ 1000000)) }
    ensures cost { (p : Source) (rails : ℕ) (l : GuardLayout) → AreCones p cones.now → p.code ≡ code.now → p.state ≡ l.state → map (name_at p.m.names) nets.now ≡ output_nets_of p.m
        → l.output ≡ map (λ (w : Vec ℕ Heap). w.items) words.now → IfOk result (IsOutputSum p rails l start) }
{
    partial_sizes_add_up();
    partial_sizes_stay_below();
    let mut total = start;
    for word in words {
        match add_word(cones, walk, code, nets, word, total + u32::from(code.r()))? {
            Some(sum) => total = sum,
            None => return Ok(None),
        }
    }
    Ok(Some(total))
}
