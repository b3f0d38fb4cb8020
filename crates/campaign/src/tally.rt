// How many runs have each outcome.
ghost use Rattle.std.specs.Prelude.{◌≡◌, ◌+◌, ◌<◌, ◌^◌, List};
ghost use Rattle.guard_spec.specs.Tally.{tally_of};
ghost use Rattle.tally_laws.specs.Counts.{counted, total};
ghost use Rattle.campaign.specs.Views.{outcome_in, tally_in};

use crate::seen::Outcome;

/// The number of runs that are right, alarmed, decoded and wrong.
#[derive(Clone, Copy, Debug, Default, PartialEq, Eq)]
pub struct Tally {
    pub right: u64,
    pub alarmed: u64,
    pub decoded: u64,
    pub wrong: u64,
}

impl Tally {
    /// One more run.
    pub(crate) fn count(&mut self, outcome: Outcome)
        requires { total (tally_in self.old) < 2 ^ 63 }
        ensures { tally_in self.new ≡ counted (tally_in self.old) (outcome_in outcome) }
    {
        match outcome {
            Outcome::Right => self.right += 1,
            Outcome::Alarmed => self.alarmed += 1,
            Outcome::Decoded => self.decoded += 1,
            Outcome::Wrong => self.wrong += 1,
        }
    }
}
