// The order in which nets settle.
ghost use Rattle.std.specs.Prelude.{◌≡◌, ◌<◌, ◌↔◌, ◌⊎◌, ℕ, List, length, All, Contains, IfOk};
ghost use Rattle.net_graph.specs.Chains.{IsMarked};
ghost use Rattle.net_order.specs.Order.{AreDriven, AreNets, IsLeftOver, IsOrder, OthersAreLeft, OthersWait};
ghost use Rattle.net_order.specs.States.{Begins, IsDrivenBy, WaitsBelow, waiters};
ghost use Rattle.net_order.specs.declared.waiting.Waiter.{Waiter as AWaiter};

use crate::state::State;
use crate::waiting::{Waiter, Waiting};
use net_graph::{Graph, mark_ends};
use std::alloc::{AllocError, Global};

/// An order of items, and marks at the nets that are left over.
#[derive(Drop)]
pub struct Settled {
    pub order: Vec<usize>,
    pub left: Vec<bool>,
}

/// Orders the items that combine, as far as that goes: an item follows when all nets that it reads are given or driven by
/// earlier ones. Marks the nets that the other items drive. The work is linear in what is read and driven.
pub fn settle(
    alloc: Global,
    reads: &Graph,
    drives: &Graph,
    combines: &[bool],
    given: &[bool],
) -> Result<Settled, AllocError>
    requires reads { AreNets (length given.now) reads.now }
    requires drives { AreNets (length given.now) drives.now }
    requires drivers { length drives.now ≡ length reads.now }
    requires combines { length combines.now ≡ length reads.now }
    ensures order { IfOk result (λ s. IsOrder reads.now drives.now combines.now given.now s.order.items) }
    ensures size { IfOk result (λ s. length s.left.items ≡ length given.now) }

    // where each net that is read has a driver
    ensures left { IfOk result (λ s. AreDriven reads.now drives.now combines.now given.now
        → (n : ℕ) → IsMarked s.left.items n → IsLeftOver reads.now drives.now combines.now s.left.items n) }
    ensures waits { IfOk result (λ s. AreDriven reads.now drives.now combines.now given.now → OthersWait reads.now combines.now s.left.items s.order.items) }
    ensures others { IfOk result (λ s. OthersAreLeft drives.now combines.now s.left.items s.order.items) }
{
    let mut state = begin(alloc, reads, combines, given)?;
    let mut done = 0;
    while done < state.order.len() {
        let item = state.order[done];
        state.settle_nets(alloc, reads, drives.row(item))?;
        done += 1;
    }
    let left = left_over(alloc, drives, &state.waiting, given.len())?;
    Ok(Settled {
        order: state.order,
        left,
    })
}

// Each item that combines waits for the first net that isn't given, or is ordered.
fn begin(
    alloc: Global,
    reads: &Graph,
    combines: &[bool],
    given: &[bool],
) -> Result<State, AllocError>
    requires reads { AreNets (length given.now) reads.now }
    requires combines { length combines.now ≡ length reads.now }
    ensures { IfOk result (λ s. (drives : List (List ℕ)) → Begins reads.now drives combines.now given.now (length combines.now) s) }
{
    let mut state = State {
        settled: Vec::from_slice(alloc, given)?,
        waiting: Waiting::new(alloc, given.len())?,
        order: Vec::new(alloc),
    };
    for (item, does_combine) in combines.iter().enumerate() {
        if *does_combine {
            state.advance(reads, Waiter { item, place: 0 })?;
        }
    }
    Ok(state)
}

// Marks at the nets that waiting items drive.
fn left_over(
    alloc: Global,
    drives: &Graph,
    waiting: &Waiting,
    nets: usize,
) -> Result<Vec<bool>, AllocError>
    requires drives { AreNets nets drives.now }
    requires nets { length waiting.now ≡ nets }
    requires items { (n : ℕ) (w : AWaiter) → Contains (waiters waiting.now n) w → w.item < length drives.now }
    ensures { IfOk result (λ left. (length left.items ≡ nets) × ((n : ℕ) → IsMarked left.items n ↔ WaitsBelow drives.now waiting.now nets n)) }
{
    let mut left = vec![in alloc; false; nets]?;
    for net in 0..nets {
        mark_driven(drives, waiting.list(net), &mut left);
    }
    Ok(left)
}

// Marks the nets that these items drive.
fn mark_driven(drives: &Graph, list: &[Waiter], left: &mut [bool])
    requires drives { AreNets (length left.old) drives.now }
    requires items { All (λ (w : AWaiter). w.item < length drives.now) list.now }
    ensures { (n : ℕ) → IsMarked left.new n ↔ (IsMarked left.old n ⊎ IsDrivenBy drives.now list.now n) }
{
    for waiter in list {
        mark_ends(drives.row(waiter.item), left);
    }
}
