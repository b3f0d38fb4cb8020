// Words that are taken in order.
ghost use Rattle.std.specs.Prelude.{◌≡◌, ◌+◌, ◌<◌, ◌≤◌, ◌^◌, IfOk};
ghost use Rattle.std.specs.List.{range_with_len};
ghost use Rattle.guard_spec.specs.Words.{AreTakenBy, all_numbers};
ghost use Rattle.encode_state.specs.Types.{words_in};

use std::alloc::{AllocError, Global};

// So many numbers from the first one on.
fn run(alloc: Global, first: u32, len: u32) -> Result<Vec<u32>, AllocError>
    requires { first + len < 2 ^ 32 }
    ensures { IfOk result (λ run. run.items ≡ range_with_len first len) }
{
    let mut run = Vec::new(alloc);
    for n in first..first + len {
        run.push(n)?;
    }
    Ok(run)
}

/// The numbers below a number in order, k in a word; the last word may be short.
pub(crate) fn taken_words(alloc: Global, end: u32, k: u32) -> Result<Vec<Vec<u32>>, AllocError>
    requires { 1 ≤ k }
    ensures all { IfOk result (λ words. all_numbers (words_in words.items) ≡ range_with_len 0 end) }
    ensures taken { IfOk result (λ words. AreTakenBy k (words_in words.items)) }
{
    let mut words = Vec::new(alloc);
    let mut first = 0;
    while first < end {
        let len = k.min(end - first);
        let word = run(alloc, first, len)?;
        words.push(word)?;
        first += len;
    }
    Ok(words)
}
