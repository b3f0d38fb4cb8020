// Counts that have a limit.
ghost use Rattle.std.specs.Prelude.{◌≡◌};
ghost use Rattle.netlist_spec.specs.Escapes.{quantity_word};
ghost use Rattle.imp_text.specs.Quantities.{quantity_of};

/// A count whose limit a netlist may pass.
#[derive(Clone, Copy, Debug, PartialEq, Eq)]
pub enum What {
    Cover,
    Inputs,
    Outputs,
    Clocks,
    Latches,
    Statements,
    Source,
}

impl What {
    /// The word for it in a line of errors.
    pub fn word(self) -> &'static str
        ensures { result.now ≡ quantity_word (quantity_of self) }
    {
        match self {
            What::Cover => "cover",
            What::Inputs => "inputs",
            What::Outputs => "outputs",
            What::Clocks => "clocks",
            What::Latches => "latches",
            What::Statements => "statements",
            What::Source => "source",
        }
    }
}
