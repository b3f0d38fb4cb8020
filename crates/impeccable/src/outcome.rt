// How a call of the program ends.
ghost use Rattle.std.specs.Prelude.{◌≡◌};

use crate::Refusal;

/// How a call of the program ends.
#[derive(Drop)]
pub enum Outcome {
    /// The whole text was written.
    Done,
    /// An audit has a finding.
    Found,
    /// The words are of no command.
    Usage,
    /// The input is refused, and nothing was written.
    Refused(Refusal),
    /// A load failed, and nothing was written.
    ReadFault,
    /// A put to the output failed; what was written before is a prefix of the text.
    WriteFault,
    /// Memory is wanting; what was written, if anything, is a prefix of the text.
    NoMemory,
}

impl Outcome {
    ghost use Rattle.impeccable.specs.Outcome.{code_of};

    /// The status that the program ends with.
    pub fn code(&self) -> u8
        ensures { result ≡ code_of self.now }
    {
        match self {
            Outcome::Done => 0,
            Outcome::Refused(_) => 1,
            Outcome::Usage => 2,
            Outcome::ReadFault => 3,
            Outcome::WriteFault => 4,
            Outcome::NoMemory => 5,
            Outcome::Found => 6,
        }
    }
}
