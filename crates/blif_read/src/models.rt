// The models of a file, as they are gathered line by line.
ghost use Rattle.std.specs.Prelude.{◌≡◌, ◌+◌, ◌≤◌, [], true, false, None, is_some, length, List, All, IfOk, OnOk};
ghost use Rattle.netlist_spec.specs.Reads.{Numbered, models_of};
ghost use Rattle.blif_read.specs.declared.kind.Kind.TheVariants.{Model as ModelKind};
ghost use Rattle.blif_read.specs.Building.{AddsToFile, AreClosed, FitsFile, IsFileSoFar, has_cover, name_count, numbered, opens};
ghost use Rattle.blif_read.specs.Ids.{HasIds};
ghost use Rattle.blif_read.specs.Kinds.{kind_in};
ghost use Rattle.blif_read.specs.Summaries.{is_model};
ghost use Rattle.blif_read.specs.View.{file_of};

use crate::kind::Kind;
use crate::line::Line;
use crate::model::ModelSoFar;
use crate::{File, Model, Name};
use std::alloc::{AllocError, Global};

// The models of the lines so far: those before the last, and the last.
#[derive(Drop)]
pub(crate) struct FileSoFar {
    closed: Vec<Model>,
    last: Option<ModelSoFar>,
}

impl FileSoFar {
    // A file without lines.
    pub(crate) fn new(alloc: Global) -> FileSoFar
        ensures file { IsFileSoFar result [] }
        ensures no_model { result.last ≡ None }
    {
        FileSoFar {
            closed: Vec::new(alloc),
            last: None,
        }
    }

    // Moves the last model to the others.
    fn close_last(&mut self) -> Result<(), AllocError>
        ensures closed { OnOk result ((lines : List Numbered) → IsFileSoFar self.old lines → AreClosed self.new.closed.items lines) }
        ensures no_model { OnOk result (self.new.last ≡ None) }
    {
        if let Some(last) = self.last.take() {
            self.closed.push(last.close()?)?;
        }
        Ok(())
    }

    // Begins a model.
    fn begin(&mut self, alloc: Global, line: &Line) -> Result<(), AllocError>
        requires fits { FitsFile self.old line.now }
        requires kind { line.now.kind ≡ ModelKind }
        ensures adds { OnOk result (AddsToFile self.old (numbered line.now) self.new) }
        ensures model { OnOk result (is_some self.new.last ≡ true) }
        ensures cover { OnOk result (has_cover self.new.last ≡ false) }
        ensures few { OnOk result (name_count self.new.last ≡ 0) }
    {
        self.close_last()?;
        let name = Name::new(alloc, line.words[1])?;
        self.last = Some(ModelSoFar::new(alloc, line.number, name));
        Ok(())
    }

    // Adds a line that fits.
    pub(crate) fn add_line(&mut self, alloc: Global, line: &Line) -> Result<(), AllocError>
        requires fits { FitsFile self.old line.now }
        ensures adds { OnOk result (AddsToFile self.old (numbered line.now) self.new) }
        ensures model { OnOk result (is_some self.new.last ≡ true) }
        ensures cover { OnOk result (has_cover self.new.last ≡ opens (kind_in line.now.kind) (has_cover self.old.last)) }
        ensures few { OnOk result (name_count self.new.last ≤ name_count self.old.last + length line.now.words.now) }
    {
        if matches!(line.kind, Kind::Model) {
            return self.begin(alloc, line);
        }
        if let Some(last) = &mut self.last {
            last.add_line(alloc, line)?;
        }
        Ok(())
    }

    // The file of the lines.
    pub(crate) fn close(mut self) -> Result<File, AllocError>
        ensures file { IfOk result (λ file. (lines : List Numbered) → IsFileSoFar self lines → file_of file ≡ record { models = models_of lines }) }
        ensures ids { IfOk result (λ file. (lines : List Numbered) → IsFileSoFar self lines → All HasIds file.models.items) }
    {
        self.close_last()?;
        Ok(File {
            models: self.closed,
        })
    }
}
