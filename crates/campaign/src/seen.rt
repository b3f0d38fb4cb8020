// What is seen of the cycles of a run, and which outcome that is.
ghost use Rattle.std.specs.Prelude.{◌≡◌, IsTrue};
ghost use Rattle.settings.specs.Types.{mode_in};
ghost use Rattle.tally_laws.specs.Seen.{nothing_seen, outcome_seen, then_seen};
ghost use Rattle.tally_laws.specs.Settled.{IsSettled};
ghost use Rattle.campaign.specs.Views.{outcome_in, seen_of};

use settings::Mode;

/// Of some cycles in a row: all source outputs are right; some rail is 1; for each cycle with a wrong output a rail is 1
/// in it or in an earlier one of them; each output word is near.
#[derive(Clone, Copy, Debug)]
pub(crate) struct Seen {
    pub(crate) right: bool,
    pub(crate) raised: bool,
    pub(crate) in_time: bool,
    pub(crate) near: bool,
}

/// What a run with a fault comes to.
#[derive(Clone, Copy, Debug)]
pub(crate) enum Outcome {
    Right,
    Alarmed,
    Decoded,
    Wrong,
}

impl Seen {
    /// No cycle.
    pub(crate) fn nothing() -> Seen
        ensures { seen_of result ≡ nothing_seen }
    {
        Seen {
            right: true,
            raised: false,
            in_time: true,
            near: true,
        }
    }

    /// Some cycles and then others.
    pub(crate) fn then(self, later: Seen) -> Seen
        ensures { seen_of result ≡ then_seen (seen_of self) (seen_of later) }
    {
        Seen {
            right: self.right && later.right,
            raised: self.raised || later.raised,
            in_time: self.in_time && (self.raised || later.in_time),
            near: self.near && later.near,
        }
    }

    /// The outcome of a run of which this is seen.
    pub(crate) fn outcome(self, mode: Mode) -> Outcome
        ensures { outcome_in result ≡ outcome_seen (mode_in mode) (seen_of self) }
    {
        if self.right {
            return Outcome::Right;
        }
        match mode {
            Mode::Detect if self.in_time => Outcome::Alarmed,
            Mode::Correct if self.near => Outcome::Decoded,
            _ => Outcome::Wrong,
        }
    }

    /// Whether later cycles can't change the outcome.
    pub(crate) fn is_settled(self, mode: Mode) -> bool
        ensures { IsTrue result → IsSettled (mode_in mode) (seen_of self) (outcome_seen (mode_in mode) (seen_of self)) }
    {
        match mode {
            Mode::Detect => !self.right && (self.raised || !self.in_time),
            Mode::Correct => !self.right && !self.near,
        }
    }
}
