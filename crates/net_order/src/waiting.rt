// Items that wait for nets.
ghost use Rattle.std.specs.Prelude.{◌≡◌, ◌<◌, [], ◌∷◌, ◌++◌, length, replicate, slice_index_or, slice_set, IfOk, OnOk};

use std::alloc::{AllocError, Global};
use std::marker::Model;
use std::mem;

// An item that waits for the net at this place of those that it reads.
#[derive(Clone, Copy)]
pub(crate) struct Waiter {
    pub(crate) item: usize,
    pub(crate) place: usize,
}

// For each net the items that wait for it.
#[derive(Drop)]
pub(crate) struct Waiting {
    lists: Vec<Vec<Waiter>>,
}

impl Model for Waiting {
    ghost use Rattle.std.specs.Prelude.{List, map};
    ghost use Rattle.net_order.specs.declared.waiting.Waiter.{Waiter};

    ghost Value = { List (List Waiter) };

    ghost view = { λ w. map (λ v. v.items) w.lists.items };
}

impl Waiting {
    pub(crate) fn new(alloc: Global, nets: usize) -> Result<Waiting, AllocError>
        ensures { IfOk result (λ w. w ≡ replicate nets []) }
    {
        let mut lists = Vec::new(alloc);
        for net in 0..nets {
            lists.push(Vec::new(alloc))?;
        }
        Ok(Waiting { lists })
    }

    pub(crate) fn push(&mut self, net: usize, waiter: Waiter) -> Result<(), AllocError>
        requires { net < length self.old }
        ensures { OnOk result (self.new ≡ slice_set self.old net (slice_index_or self.old net [] ++ waiter ∷ [])) }
    {
        self.lists[net].push(waiter)?;
        Ok(())
    }

    // Those that wait for a net, of which none are left.
    pub(crate) fn take(&mut self, alloc: Global, net: usize) -> Vec<Waiter>
        requires { net < length self.old }
        ensures taken { result.items ≡ slice_index_or self.old net [] }
        ensures rest { self.new ≡ slice_set self.old net [] }
    {
        mem::replace(&mut self.lists[net], Vec::new(alloc))
    }

    pub(crate) fn list(&self, net: usize) -> &[Waiter]
        requires { net < length self.now }
        ensures { result.now ≡ slice_index_or self.now net [] }
    {
        &self.lists[net]
    }
}
