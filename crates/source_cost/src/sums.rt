// Costs that are cut off at one more than a source may cost.
ghost use Rattle.std.specs.Prelude.{◌≡◌, min, sum};

// One more than the most cells of a source.
const CUT: u64 = 1_000_001;

pub(crate) fn cut(cost: u64) -> u32
    ensures { result ≡ min cost 1000001 }
{
    cost.min(CUT) as u32
}

/// The sum of some costs, cut off at 1,000,001.
pub fn total_cost(costs: &[u32]) -> u32
    ensures { result ≡ min (sum costs.now) 1000001 }
{
    let mut total = 0;
    for cost in costs {
        total = cut(u64::from(total) + u64::from(*cost));
    }
    total
}
