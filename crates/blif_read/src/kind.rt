// What the first word of a line says.
ghost use Rattle.std.specs.Prelude.{◌≡◌};
ghost use Rattle.netlist_spec.specs.ReadFaults.{begins_with_dot, word_kind};
ghost use Rattle.blif_read.specs.Kinds.{kind_in};

/// One of the eight statements, another word that begins with `.`, or none, so that the line can only be a row.
#[derive(Clone, Copy, Debug)]
pub(crate) enum Kind {
    Model,
    Inputs,
    Outputs,
    Clock,
    Names,
    Latch,
    Subckt,
    End,
    Other,
    Row,
}

fn is_dotted(word: &[u8]) -> bool
    ensures { result ≡ begins_with_dot word.now }
{
    match word {
        [] => false,
        [first, ..] => *first == b'.',
    }
}

impl Kind {
    pub(crate) fn new(word: &[u8]) -> Kind
        ensures { kind_in result ≡ word_kind word.now }
    {
        if word == b".model".as_slice() {
            Kind::Model
        } else if word == b".inputs".as_slice() {
            Kind::Inputs
        } else if word == b".outputs".as_slice() {
            Kind::Outputs
        } else if word == b".clock".as_slice() {
            Kind::Clock
        } else if word == b".names".as_slice() {
            Kind::Names
        } else if word == b".latch".as_slice() {
            Kind::Latch
        } else if word == b".subckt".as_slice() {
            Kind::Subckt
        } else if word == b".end".as_slice() {
            Kind::End
        } else if is_dotted(word) {
            Kind::Other
        } else {
            Kind::Row
        }
    }
}
