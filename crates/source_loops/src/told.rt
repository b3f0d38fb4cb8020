// The names of nets.
ghost use Rattle.std.specs.Prelude.{◌≡◌, ◌==◌, ◌<◌, ◌≤◌, ℕ, length, map, count_by, All, IfOk};
ghost use Rattle.source_loops.specs.Nets.{name_of};

use imp_text::{NameId, Names};
use std::alloc::{AllocError, Global};

// The names of nets of which none stands twice.
pub(crate) fn names_of(alloc: Global, all: &Names, nets: &[usize]) -> Result<Names, AllocError>
    requires within { All (λ k. k < length all.now) nets.now }
    requires once { (i : ℕ) → count_by (λ k. k == i) nets.now ≤ 1 }
    ensures { IfOk result (λ names. names ≡ map (name_of all.now) nets.now) }
{
    // As none stands twice, they are no more than there are names.
    let count = all.len() as usize;
    prove!(nets.len() <= count);
    let mut names = Names::new(alloc);
    for net in nets {
        names.intern(all.get(NameId(*net as u32)))?;
    }
    Ok(names)
}
