// What has been settled so far, and which items wait.
ghost use Rattle.std.specs.Prelude.{◌≡◌, ◌<◌, ◌≤◌, ℕ, false, List, [], ◌∷◌, length, slice_index_or, All, Contains, OnOk};
ghost use Rattle.std.specs.List.{flat_map};
ghost use Rattle.net_graph.specs.Chains.{IsMarked, ends_of};
ghost use Rattle.net_order.specs.States.{IsHeld, IsState, Moves, Task, Waits};
ghost use Rattle.net_order.specs.declared.waiting.Waiter.{Waiter as AWaiter};

use crate::waiting::{Waiter, Waiting};
use net_graph::Graph;
use std::alloc::{AllocError, Global};

// Marks at settled nets, the items that wait for the others, and the items that are ordered.
#[derive(Drop)]
pub(crate) struct State {
    pub(crate) settled: Vec<bool>,
    pub(crate) waiting: Waiting,
    pub(crate) order: Vec<usize>,
}

// The first place from this one on whose net isn't settled, or the end.
fn next_unsettled(nets: &[usize], from: usize, settled: &[bool]) -> usize
    requires within { from ≤ length nets.now }
    requires nets { All (λ n. n < length settled.now) nets.now }
    ensures from { from ≤ result }
    ensures end { result ≤ length nets.now }
    ensures before { (k : ℕ) → from ≤ k → k < result → IsMarked settled.now (slice_index_or nets.now k 0) }
    ensures here { result < length nets.now → slice_index_or settled.now (slice_index_or nets.now result 0) false ≡ false }
{
    for place in from..nets.len() {
        if !settled[nets[place]] {
            return place;
        }
    }
    nets.len()
}

impl State {
    // An item that is in hand waits for the next net that isn't settled, or is ordered where there is none.
    pub(crate) fn advance(&mut self, reads: &Graph, waiter: Waiter) -> Result<(), AllocError>
        requires waits { Waits reads.now self.old }
        requires held { IsHeld reads.now self.old.settled.items waiter }
        ensures moves { OnOk result (Moves reads.now self.old self.new) }
        ensures settled { OnOk result (self.new.settled.items ≡ self.old.settled.items) }
        ensures state { OnOk result ((t : Task) (hand : List AWaiter) → IsState reads.now t (waiter ∷ hand) self.old → IsState reads.now t hand self.new) }
    {
        let nets = reads.row(waiter.item);
        let place = next_unsettled(nets, waiter.place, &self.settled);
        if place < nets.len() {
            let next = Waiter {
                item: waiter.item,
                place,
            };
            self.waiting.push(nets[place], next)?;
        } else {
            self.order.push(waiter.item)?;
        }
        Ok(())
    }

    // All items in hand go on.
    fn wake(&mut self, reads: &Graph, hand: &[Waiter]) -> Result<(), AllocError>
        requires waits { Waits reads.now self.old }
        requires held { All (IsHeld reads.now self.old.settled.items) hand.now }
        ensures moves { OnOk result (Moves reads.now self.old self.new) }
        ensures settled { OnOk result (self.new.settled.items ≡ self.old.settled.items) }
        ensures state { OnOk result ((t : Task) → IsState reads.now t hand.now self.old → IsState reads.now t [] self.new) }
    {
        for waiter in hand {
            self.advance(reads, *waiter)?;
        }
        Ok(())
    }

    // Settles a net that an ordered item drives, and goes on with those that wait for it.
    fn settle_net(&mut self, alloc: Global, reads: &Graph, net: usize) -> Result<(), AllocError>
        requires waits { Waits reads.now self.old }
        requires net { net < length self.old.settled.items }
        ensures moves { OnOk result (Moves reads.now self.old self.new) }
        ensures settled { OnOk result (IsMarked self.new.settled.items net) }
        ensures state { OnOk result ((t : Task) → Contains (flat_map (ends_of t.drives) self.old.order.items) net → IsState reads.now t [] self.old → IsState reads.now t [] self.new) }
    {
        if self.settled[net] {
            return Ok(());
        }
        self.settled[net] = true;
        let hand = self.waiting.take(alloc, net);
        self.wake(reads, &hand)
    }

    // Settles all nets that an ordered item drives.
    pub(crate) fn settle_nets(
        &mut self,
        alloc: Global,
        reads: &Graph,
        nets: &[usize],
    ) -> Result<(), AllocError>
        requires waits { Waits reads.now self.old }
        requires nets { All (λ n. n < length self.old.settled.items) nets.now }
        ensures moves { OnOk result (Moves reads.now self.old self.new) }
        ensures settled { OnOk result ((n : ℕ) → Contains nets.now n → IsMarked self.new.settled.items n) }
        ensures state { OnOk result ((t : Task) → ((n : ℕ) → Contains nets.now n → Contains (flat_map (ends_of t.drives) self.old.order.items) n) → IsState reads.now t [] self.old → IsState reads.now t [] self.new) }
    {
        for net in nets {
            self.settle_net(alloc, reads, *net)?;
        }
        Ok(())
    }
}
