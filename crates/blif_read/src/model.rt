// One model, as it is gathered line by line.
ghost use Rattle.std.specs.Prelude.{◌≡◌, ◌+◌, ◌≤◌, [], None, false, is_some, length, IfOk, OnOk, ℕ, List};
ghost use Rattle.netlist_spec.specs.Netlist.{Name as Bytes};
ghost use Rattle.netlist_spec.specs.Reads.{Numbered, model_of as model_of_lines};
ghost use Rattle.netlist_spec.specs.Said.{row_said};
ghost use Rattle.blif_read.specs.declared.kind.Kind.TheVariants.{Row as RowKind};
ghost use Rattle.blif_read.specs.declared.file.Statement.TheVariants.{Names as NamesOf};
ghost use Rattle.blif_read.specs.Ids.{HasIds};
ghost use Rattle.blif_read.specs.Kinds.{kind_in};
ghost use Rattle.blif_read.specs.LineTests.{words_in};
ghost use Rattle.blif_read.specs.Spelled.{IsRow};
ghost use Rattle.blif_read.specs.Summaries.{is_row};
ghost use Rattle.blif_read.specs.Building.{AddsLine, AddsRow, FitsModel, IsModelSoFar, IsRowOf, KeepsLines, PutsStatement, declares_ports, is_names, numbered, opens};
ghost use Rattle.blif_read.specs.View.{model_of};

use crate::kind::Kind;
use crate::line::Line;
use crate::row::{read_last, read_row};
use crate::statement::{add_ports, read_statement};
use crate::{Cover, Located, Model, Name, NameId, Names, Statement};
use std::alloc::{AllocError, Global};

// A `.names` whose rows may follow, with those so far.
#[derive(Drop)]
pub(crate) struct OpenCover {
    line: u32,
    ins: Vec<NameId>,
    out: NameId,
    cover: Cover,
}

// The model of the lines so far. Its last statement is the cover that is open, if one is.
#[derive(Drop)]
pub(crate) struct ModelSoFar {
    model: Model,
    cover: Option<OpenCover>,
}

impl OpenCover {
    // Adds a row. The first one's last character is that of the cover.
    fn add_row(&mut self, words: &[&[u8]]) -> Result<(), AllocError>
        requires { IsRow (words_in words.now) }
        ensures line { self.new.line ≡ self.old.line }
        ensures ins { self.new.ins ≡ self.old.ins }
        ensures out { self.new.out ≡ self.old.out }
        ensures cover { OnOk result (AddsRow self.old.cover (row_said (words_in words.now)) self.new.cover) }
    {
        if self.cover.rows.is_empty() {
            self.cover.on = read_last(words);
        }
        self.cover.rows.push(read_row(words))?;
        Ok(())
    }

    fn into_located(self) -> Located
        ensures { result ≡ record { line = self.line; what = NamesOf self.ins self.out self.cover } }
    {
        Located {
            line: self.line,
            what: Statement::Names {
                ins: self.ins,
                out: self.out,
                cover: self.cover,
            },
        }
    }
}

impl ModelSoFar {
    // A model without lines.
    pub(crate) fn new(alloc: Global, line: u32, name: Name) -> ModelSoFar
        ensures model { IsModelSoFar result line name [] }
        ensures no_cover { result.cover ≡ None }
        ensures no_names { result.model.names ≡ [] }
    {
        let model = Model {
            name,
            line,
            names: Names::new(alloc),
            inputs: Vec::new(alloc),
            outputs: Vec::new(alloc),
            clocks: Vec::new(alloc),
            statements: Vec::new(alloc),
        };
        ModelSoFar { model, cover: None }
    }

    // Moves the cover that is open to the statements.
    fn close_cover(&mut self) -> Result<(), AllocError>
        ensures keeps { OnOk result (KeepsLines self.old self.new) }
        ensures no_cover { OnOk result (self.new.cover ≡ None) }
        ensures names { OnOk result (self.new.model.names ≡ self.old.model.names) }
    {
        if let Some(last) = self.cover.take() {
            self.model.statements.push(last.into_located())?;
        }
        Ok(())
    }

    fn add_row(&mut self, line: &Line) -> Result<(), AllocError>
        requires fits { FitsModel self.old line.now }
        requires row { IsRowOf self.old line.now }
        requires kind { line.now.kind ≡ RowKind }
        ensures adds { OnOk result (AddsLine self.old (numbered line.now) self.new) }
        ensures cover { OnOk result (is_some self.new.cover ≡ is_some self.old.cover) }
        ensures names { OnOk result (self.new.model.names ≡ self.old.model.names) }
    {
        if let Some(last) = &mut self.cover {
            last.add_row(line.words)?;
        }
        Ok(())
    }

    // Puts a statement behind the others.
    fn put(&mut self, line: u32, what: Statement) -> Result<(), AllocError>
        requires { self.old.cover ≡ None }
        ensures puts { OnOk result (PutsStatement self.old.model.statements.items line what self.new.model.statements.items self.new.cover) }
        ensures cover { OnOk result (is_some self.new.cover ≡ is_names what) }
        ensures model { self.new.model ≡ record self.old.model { statements = self.new.model.statements } }
    {
        match what {
            Statement::Names { ins, out, cover } => {
                self.cover = Some(OpenCover {
                    line,
                    ins,
                    out,
                    cover,
                });
            }
            what => self.model.statements.push(Located { line, what })?,
        }
        Ok(())
    }

    // Adds the statement that the line says, if it says one.
    fn add_statement(&mut self, alloc: Global, line: &Line) -> Result<(), AllocError>
        requires fits { FitsModel self.old line.now }
        requires no_cover { self.old.cover ≡ None }
        requires no_ports { declares_ports (kind_in line.now.kind) ≡ false }
        requires no_row { is_row (kind_in line.now.kind) ≡ false }
        ensures adds { OnOk result (AddsLine self.old (numbered line.now) self.new) }
        ensures cover { OnOk result (is_some self.new.cover ≡ opens (kind_in line.now.kind) false) }
        ensures few { OnOk result (length self.new.model.names ≤ length self.old.model.names + length line.now.words.now) }
    {
        if let Some(what) = read_statement(alloc, line, &mut self.model.names)? {
            self.put(line.number, what)?;
        }
        Ok(())
    }

    // Adds a line that is no row.
    fn add_other(&mut self, alloc: Global, line: &Line) -> Result<(), AllocError>
        requires fits { FitsModel self.old line.now }
        requires no_cover { self.old.cover ≡ None }
        requires no_row { is_row (kind_in line.now.kind) ≡ false }
        ensures adds { OnOk result (AddsLine self.old (numbered line.now) self.new) }
        ensures cover { OnOk result (is_some self.new.cover ≡ opens (kind_in line.now.kind) false) }
        ensures few { OnOk result (length self.new.model.names ≤ length self.old.model.names + length line.now.words.now) }
    {
        let model = &mut self.model;
        match line.kind {
            Kind::Inputs => add_ports(line, &mut model.names, &mut model.inputs),
            Kind::Outputs => add_ports(line, &mut model.names, &mut model.outputs),
            Kind::Clock => add_ports(line, &mut model.names, &mut model.clocks),
            Kind::Model
            | Kind::Names
            | Kind::Latch
            | Kind::Subckt
            | Kind::End
            | Kind::Other
            | Kind::Row => self.add_statement(alloc, line),
        }
    }

    // Adds a line that fits.
    pub(crate) fn add_line(&mut self, alloc: Global, line: &Line) -> Result<(), AllocError>
        requires fits { FitsModel self.old line.now }
        ensures adds { OnOk result (AddsLine self.old (numbered line.now) self.new) }
        ensures cover { OnOk result (is_some self.new.cover ≡ opens (kind_in line.now.kind) (is_some self.old.cover)) }
        ensures few { OnOk result (length self.new.model.names ≤ length self.old.model.names + length line.now.words.now) }
    {
        if matches!(line.kind, Kind::Row) {
            return self.add_row(line);
        }
        self.close_cover()?;
        self.add_other(alloc, line)
    }

    // The model of the lines.
    pub(crate) fn close(mut self) -> Result<Model, AllocError>
        ensures model { IfOk result (λ model. (n : ℕ) (name : Bytes) (lines : List Numbered) → IsModelSoFar self n name lines → model_of model ≡ model_of_lines n name lines) }
        ensures ids { IfOk result (λ model. (n : ℕ) (name : Bytes) (lines : List Numbered) → IsModelSoFar self n name lines → HasIds model) }
    {
        self.close_cover()?;
        Ok(self.model)
    }
}
