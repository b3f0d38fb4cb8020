// What is known of the statements of a file.
ghost use Rattle.std.specs.Prelude.{◌≡◌, ◌<◌, Some, length, map, slice_get, All};
ghost use Rattle.netlist_spec.specs.Covers.{Library};
ghost use Rattle.netlist_spec.specs.Netlist.{File as SpecFile, Located, Model};
ghost use Rattle.netlist_spec.specs.Sound.{drives as drives_of, reads as reads_of};
ghost use Rattle.blif_read.specs.Ids.{IsIdOf};
ghost use Rattle.blif_read.specs.View.{name_at};
ghost use Rattle.source_nets.specs.Survey.{IsMeaningIn, IsModelSurvey, Means};

use crate::{NetRows, PortMarks};
use blif_read::File;
use imp_text::NameId;
use linear_layer::NamedLinear;
use sbox_table::NamedTable;

/// A file, the library entries that its `.subckt` may name, and the ports of its models.
#[derive(Clone, Copy)]
pub struct Source<'a> {
    pub file: &'a File,
    pub tables: &'a [NamedTable],
    pub linears: &'a [NamedLinear],
    pub ports: &'a [PortMarks],
}

/// What a statement is: a `.names` or `.latch`, or a `.subckt` by what its name means, a place in the models of the file, in
/// the tables or in the linear layers.
#[derive(Clone, Copy, Debug)]
pub enum Meaning {
    Cell,
    Nothing,
    Model(usize),
    Table(usize),
    Linear(usize),
}

/// For each statement of a model what it is, and the nets that it reads and drives, in the order of its words.
#[derive(Drop)]
pub struct ModelSurvey {
    pub meanings: Vec<Meaning>,
    pub reads: NetRows,
    pub drives: NetRows,
}

/// For each model of a file what its statements are, and the places of the models that its `.subckt` name, in their order
/// and as often as they are named.
#[derive(Drop)]
pub struct Survey {
    pub models: Vec<ModelSurvey>,
    pub graph: Vec<Vec<usize>>,
}

impl ModelSurvey {
    /// What the statement at a place is.
    pub fn meaning(&self, i: usize) -> Meaning
        requires { i < length self.now.meanings.items }
        ensures { (file : SpecFile) (library : Library) (m : Model) (s : Located) → IsModelSurvey file library m self.now → slice_get m.statements i ≡ Some s
            → Means file library s.what result × IsMeaningIn file library result }
    {
        self.meanings[i]
    }

    /// The nets that the statement at a place reads.
    pub fn reads(&self, i: usize) -> &[NameId]
        requires { i < length self.now.reads }
        ensures names { (file : SpecFile) (library : Library) (m : Model) (s : Located) → IsModelSurvey file library m self.now → slice_get m.statements i ≡ Some s
            → map (name_at m.names) result.now ≡ reads_of file library s.what }
        ensures within { (file : SpecFile) (library : Library) (m : Model) → IsModelSurvey file library m self.now → All (IsIdOf m.names) result.now }
    {
        self.reads.row(i)
    }

    /// The nets that the statement at a place drives.
    pub fn drives(&self, i: usize) -> &[NameId]
        requires { i < length self.now.drives }
        ensures names { (file : SpecFile) (library : Library) (m : Model) (s : Located) → IsModelSurvey file library m self.now → slice_get m.statements i ≡ Some s
            → map (name_at m.names) result.now ≡ drives_of file library s.what }
        ensures within { (file : SpecFile) (library : Library) (m : Model) → IsModelSurvey file library m self.now → All (IsIdOf m.names) result.now }
    {
        self.drives.row(i)
    }
}
