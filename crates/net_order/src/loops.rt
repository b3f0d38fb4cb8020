// The loop that a walk over what is left over ends in.
ghost use Rattle.std.specs.Prelude.{◌≡◌, ◌<◌, ℕ, length, drop, slice_index_or, All, Contains, IfNone, IfOk, IfSome};
ghost use Rattle.net_graph.specs.Chains.{IsMarked, ends_of};
ghost use Rattle.net_order.specs.Order.{AreNets};
ghost use Rattle.net_order.specs.Walks.{IsFirstMarked, IsWalkedFrom, IsWalkedLoop, first_left};

use net_graph::Graph;
use std::alloc::{AllocError, Global};

/// A walk from the first net that is left over: it goes to the first net left over, in their order, of those that the item
/// reads which drives the net, and stops at the first net that it meets twice. The nets of its cycle, from that one on, and
/// none where no net is left over. Each net has the number of the item that drives it.
pub fn walk(
    alloc: Global,
    left: &[bool],
    reads: &Graph,
    driver: &[usize],
) -> Result<Option<Vec<usize>>, AllocError>
    requires nets { AreNets (length left.now) reads.now }
    requires drivers { length driver.now ≡ length left.now }
    requires items { (n : ℕ) → IsMarked left.now n → slice_index_or driver.now n 0 < length reads.now }
    requires goes_on { (n : ℕ) → IsMarked left.now n → (k : ℕ) × Contains (ends_of reads.now (slice_index_or driver.now n 0)) k × IsMarked left.now k }
    ensures none { IfOk result (λ told. IfNone told ((n : ℕ) → IsMarked left.now n → ⊥)) }
    ensures told { IfOk result (λ told. IfSome told (λ nets. IsWalkedLoop reads.now driver.now left.now nets.items)) }
{
    match first_marked(left) {
        Some(start) => {
            let nets = walk_from(alloc, left, reads, driver, start)?;
            Ok(Some(nets))
        }
        None => Ok(None),
    }
}

// The first mark.
fn first_marked(marks: &[bool]) -> Option<usize>
    ensures none { IfNone result ((n : ℕ) → IsMarked marks.now n → ⊥) }
    ensures some { IfSome result (IsFirstMarked marks.now) }
{
    for (node, is_marked) in marks.iter().enumerate() {
        if *is_marked {
            return Some(node);
        }
    }
    None
}

fn walk_from(
    alloc: Global,
    left: &[bool],
    reads: &Graph,
    driver: &[usize],
    start: usize,
) -> Result<Vec<usize>, AllocError>
    requires nets { AreNets (length left.now) reads.now }
    requires drivers { length driver.now ≡ length left.now }
    requires items { (n : ℕ) → IsMarked left.now n → slice_index_or driver.now n 0 < length reads.now }
    requires goes_on { (n : ℕ) → IsMarked left.now n → (k : ℕ) × Contains (ends_of reads.now (slice_index_or driver.now n 0)) k × IsMarked left.now k }
    requires start { IsMarked left.now start }
    ensures { IfOk result (λ nets. IsWalkedFrom reads.now driver.now left.now start nets.items) }
{
    let mut met = vec![in alloc; false; left.len()]?;
    let mut path = Vec::new(alloc);
    let mut net = start;
    while !met[net] {
        path.push(net)?;
        met[net] = true;
        net = next_left(reads.row(driver[net]), left);
    }
    path_from(alloc, &path, net)
}

// The first of these nets that is left over.
fn next_left(nets: &[usize], left: &[bool]) -> usize
    requires nets { All (λ n. n < length left.now) nets.now }
    requires some { (k : ℕ) × Contains nets.now k × IsMarked left.now k }
    ensures next { first_left left.now nets.now ≡ Some result }
    ensures left { IsMarked left.now result }
{
    let mut place = 0;
    while !left[nets[place]] {
        place += 1;
    }
    nets[place]
}

// A path from a net on that it has met.
fn path_from(alloc: Global, path: &[usize], net: usize) -> Result<Vec<usize>, AllocError>
    requires { Contains path.now net }
    ensures { IfOk result (λ rest. (at : ℕ) × (at < length path.now) × (slice_index_or path.now at 0 ≡ net) × (rest.items ≡ drop at path.now)) }
{
    let mut at = 0;
    while path[at] != net {
        at += 1;
    }
    Vec::from_slice(alloc, &path[at..])
}
