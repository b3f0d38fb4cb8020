// What is seen of one cycle of a guard.
ghost use Rattle.std.specs.Prelude.{◌≡◌, ◌+◌, ◌*◌, ◌≤◌, length, take, drop};
ghost use Rattle.std.specs.Bool.{beq};
ghost use Rattle.std.specs.List.{list_any};
ghost use Rattle.std.specs.Cmp.Lexicographic.{pointwise};
ghost use Rattle.guard_spec.specs.Codes.{data_places};
ghost use Rattle.guard_spec.specs.Words.{IsPartition};
ghost use Rattle.tally_laws.specs.Seen.{is_near_cycle, seen_cycle};
ghost use Rattle.campaign.specs.Views.{seen_of};

use crate::near::is_near_word;
use crate::seen::Seen;
use crate::task::Task;

// Whether the first outputs are the source's.
fn is_right(y: &[bool], z: &[bool]) -> bool
    requires { length y.now ≤ length z.now }
    ensures { result ≡ pointwise beq (take (length y.now) z.now) y.now }
{
    for (i, bit) in y.iter().enumerate() {
        if z[i] != *bit {
            return false;
        }
    }
    true
}

// Whether some bit is 1.
fn is_raised(rails: &[bool]) -> bool
    ensures { result ≡ list_any (λ b. b) rails.now }
{
    for rail in rails {
        if *rail {
            return true;
        }
    }
    false
}

// Whether each output word is near the codeword of the source's.
fn is_near(task: &Task<'_>, y: &[bool], z: &[bool]) -> bool
    requires words { IsPartition (length y.now) (data_places task.now.code.now) task.now.layout.now.output }
    requires room { length y.now + length task.now.layout.now.output * task.now.code.now.columns ≤ length z.now }
    ensures { result ≡ is_near_cycle task.now.code.now task.now.layout.now (length y.now) task.now.bound y.now z.now }
{
    let layout = task.layout;
    let columns = task.code.r() as usize;
    let mut first = y.len();
    for word in &layout.output {
        let checks = &z[first..first + columns];
        if !is_near_word(task.code, task.bound, word, y, z, checks) {
            return false;
        }
        first += columns;
    }
    true
}

/// What is seen of a cycle in which the source shows `y` and the guard `z`.
pub(crate) fn seen_at(task: &Task<'_>, y: &[bool], z: &[bool]) -> Seen
    requires words { IsPartition (length y.now) (data_places task.now.code.now) task.now.layout.now.output }
    requires room { length y.now + length task.now.layout.now.output * task.now.code.now.columns ≤ length z.now }
    ensures { seen_of result ≡ seen_cycle task.now.code.now task.now.layout.now (length y.now) task.now.bound y.now z.now }
{
    let right = is_right(y, z);
    let layout = task.layout;
    let checks = layout.output.len() * task.code.r() as usize;
    let raised = is_raised(&z[y.len() + checks..]);
    Seen {
        right,
        raised,
        in_time: right || raised,
        near: is_near(task, y, z),
    }
}
