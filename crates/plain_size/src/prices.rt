// What correctors and rails cost.
ghost use Rattle.std.specs.Prelude.{◌≡◌, ◌+◌, ◌*◌, ◌^◌, ◌≤◌, ℕ, Vec, length, map, min, sum_by, All, IfOk, OnOk, ◌++◌};
ghost use Rattle.std.specs.declared.alloc.Global.{Global as Heap};
ghost use Rattle.std.specs.List.{range_with_len};
ghost use Rattle.guard_spec.specs.Codes.{IsCode, data_places};
ghost use Rattle.guard_spec.specs.Plain.{choose, corrector_cost as corrector_cost_of, ones as ones_in, rail_cost};
ghost use Rattle.plain_size.specs.Prices.{HasShortWords, watch_cost};

use crate::walk::LIMIT;
use block_code::Code;
use encode_state::types::Layout;
use std::alloc::{AllocError, Global};

// What is more than the limit is told as this.
const PAST: u32 = LIMIT + 1;

/// How many places a word has: no more than the code has rows, which are few.
pub(crate) fn places(code: &Code, word: &[u32]) -> u8
    requires { length word.now ≤ data_places code.now }
    ensures places { result ≡ length word.now }
    ensures valid { IsCode code.now }
{
    word.len().min(code.k() as usize) as u8
}

// The ones in the first m rows.
fn ones(code: &Code, m: u8) -> u32
    requires { m ≤ data_places code.now }
    ensures ones { result ≡ ones_in code.now m }
    ensures few { result ≤ 32 * m }
{
    let mut sum = 0;
    for i in 0..m {
        sum += code.row(i).count_ones();
    }
    sum
}

// The binomial coefficients of n over 1 to t, added up. Each comes from the one before: the coefficient over i times n - i is
// the next one times i + 1.
fn binomials(n: u64, t: u64) -> u64
    requires places { n ≤ 28 }
    requires few { t ≤ 16 }
    ensures sum { result ≡ sum_by (choose n) (range_with_len 1 t) }
    ensures within { result ≤ t * 2 ^ 28 }
{
    let mut level = 1;
    let mut sum = 0;
    for i in 0..t {
        level = level * n.saturating_sub(i) / (i + 1);
        sum += level;
    }
    sum
}

// What a corrector of a word of m places costs, or one more than the limit.
fn corrector_cost(code: &Code, t: u8, m: u8) -> u32
    requires bound { t ≤ 16 }
    requires places { m ≤ data_places code.now }
    ensures { result ≡ min (corrector_cost_of code.now t m) 1000001 }
{
    let places = u64::from(m);
    let bound = u64::from(t);
    let columns = u64::from(code.r());
    let patterns = binomials(places + columns, bound);
    let cost = u64::from(ones(code, m)) + patterns * (columns + bound) + 2 * places + 1;
    cost.min(u64::from(PAST)) as u32
}

// Appends what a corrector of each word costs, or one more than the limit.
fn push_correctors(
    code: &Code,
    t: u8,
    words: &[Vec<u32>],
    costs: &mut Vec<u32>,
) -> Result<(), AllocError>
    requires bound { t ≤ 16 }
    requires words { All (λ (w : Vec ℕ Heap). length w.items ≤ data_places code.now) words.now }
    ensures { OnOk result (costs.new.items ≡ costs.old.items ++ map (λ (w : Vec ℕ Heap). min (corrector_cost_of code.now t (length w.items)) 1000001) words.now) }
{
    for word in words {
        costs.push(corrector_cost(code, t, places(code, word)))?;
    }
    Ok(())
}

/// What statements cost, and then what a corrector of each word costs, or one more than the limit.
pub(crate) fn node_costs(
    alloc: Global,
    costs: &[u32],
    code: &Code,
    t: u8,
    words: &[Vec<u32>],
) -> Result<Vec<u32>, AllocError>
    requires bound { t ≤ 16 }
    requires words { All (λ (w : Vec ℕ Heap). length w.items ≤ data_places code.now) words.now }
    ensures { IfOk result (λ all. all.items ≡ costs.now ++ map (λ (w : Vec ℕ Heap). min (corrector_cost_of code.now t (length w.items)) 1000001) words.now) }
{
    let mut all = costs.to_vec(alloc)?;
    push_correctors(code, t, words, &mut all)?;
    Ok(all)
}

// What a rail has for some words beside so much, or one more than the limit.
fn watched(code: &Code, words: &[Vec<u32>], start: u32) -> u32
    requires words { All (λ (w : Vec ℕ Heap). length w.items ≤ data_places code.now) words.now }
    requires start { start ≤ 1000001 }
    ensures { result ≡ min (start + sum_by (λ (w : Vec ℕ Heap). watch_cost code.now w.items) words.now) 1000001 }
{
    let columns = u32::from(code.r());
    let mut sum = start;
    for word in words {
        sum = (sum + ones(code, places(code, word)) + 2 * columns).min(PAST);
    }
    sum
}

/// What so many rails cost, or one more than the limit.
pub(crate) fn rails_cost(code: &Code, l: &Layout, count: u8) -> u32
    requires words { HasShortWords code.now l.now }
    requires few { count ≤ 17 }
    ensures { result ≡ min (count * rail_cost code.now l.now) 1000001 }
{
    let state = watched(code, &l.state, 1);
    let rail = watched(code, &l.output, state);
    (u32::from(count) * rail).min(PAST)
}
