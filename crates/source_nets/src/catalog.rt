// What the names of `.subckt` mean.
ghost use Rattle.std.specs.Prelude.{◌≡◌, ◌≢◌, false, List, map, IsTrue, IfOk};
ghost use Rattle.netlist_spec.specs.Covers.{Library};
ghost use Rattle.netlist_spec.specs.Netlist.{File as SpecFile, Name as Bytes, are_distinct, stands_in};
ghost use Rattle.netlist_spec.specs.Placed.{placed};
ghost use Rattle.blif_read.specs.View.{file_of, statement_of};
ghost use Rattle.blif_read.specs.declared.file.Model.{Model as ReadModel};
ghost use Rattle.sbox_table.specs.declared.table.NamedTable.{NamedTable as ReadTable};
ghost use Rattle.linear_layer.specs.declared.layer.NamedLinear.{NamedLinear as ReadLinear};
ghost use Rattle.source_nets.specs.declared.types.Meaning.TheVariants.{Cell as CellOf};
ghost use Rattle.source_nets.specs.Catalog.{IsCatalog};
ghost use Rattle.source_nets.specs.Survey.{IsMeaningIn, Means, library_of, placed_at};

use crate::{Meaning, NameIndex};
use blif_read::{File, Model, Statement};
use linear_layer::NamedLinear;
use sbox_table::NamedTable;
use std::alloc::{AllocError, Global};

// The names of the models of a file and of the entries of a library, each by its place.
#[derive(Drop)]
pub(crate) struct Catalog {
    models: NameIndex,
    tables: NameIndex,
    linears: NameIndex,
}

fn model_index(alloc: Global, models: &[Model]) -> Result<NameIndex, AllocError>
    requires { IsTrue (are_distinct (map (λ (m : ReadModel). m.name) models.now)) }
    ensures { IfOk result (λ index. index ≡ map (λ (m : ReadModel). m.name) models.now) }
{
    let mut index = NameIndex::new(alloc);
    for m in models {
        index.push(m.name.bytes())?;
    }
    Ok(index)
}

fn table_index(alloc: Global, tables: &[NamedTable]) -> Result<NameIndex, AllocError>
    requires { IsTrue (are_distinct (map (λ (t : ReadTable). t.name) tables.now)) }
    ensures { IfOk result (λ index. index ≡ map (λ (t : ReadTable). t.name) tables.now) }
{
    let mut index = NameIndex::new(alloc);
    for t in tables {
        index.push(t.name.bytes())?;
    }
    Ok(index)
}

fn linear_index(alloc: Global, linears: &[NamedLinear]) -> Result<NameIndex, AllocError>
    requires { IsTrue (are_distinct (map (λ (l : ReadLinear). l.name) linears.now)) }
    ensures { IfOk result (λ index. index ≡ map (λ (l : ReadLinear). l.name) linears.now) }
{
    let mut index = NameIndex::new(alloc);
    for l in linears {
        index.push(l.name.bytes())?;
    }
    Ok(index)
}

impl Catalog {
    pub(crate) fn new(
        alloc: Global,
        file: &File,
        tables: &[NamedTable],
        linears: &[NamedLinear],
    ) -> Result<Catalog, AllocError>
        requires models { IsTrue (are_distinct (map (λ (m : ReadModel). m.name) file.now.models.items)) }
        requires tables { IsTrue (are_distinct (map (λ (t : ReadTable). t.name) tables.now)) }
        requires linears { IsTrue (are_distinct (map (λ (l : ReadLinear). l.name) linears.now)) }
        ensures { IfOk result (λ catalog. IsCatalog (file_of file.now) (library_of tables.now linears.now) catalog) }
    {
        Ok(Catalog {
            models: model_index(alloc, &file.models)?,
            tables: table_index(alloc, tables)?,
            linears: linear_index(alloc, linears)?,
        })
    }

    // What a name means where no model has it.
    fn entry(&self, name: &[u8]) -> Meaning
        requires { stands_in name.now self.now.models ≡ false }
        ensures means { (file : SpecFile) (library : Library) → IsCatalog file library self.now → placed_at file library result ≡ placed file library name.now }
        ensures within { (file : SpecFile) (library : Library) → IsCatalog file library self.now → IsMeaningIn file library result }
        ensures other { result ≢ CellOf }
    {
        match self.tables.find(name) {
            Some(place) => Meaning::Table(place),
            None => match self.linears.find(name) {
                Some(place) => Meaning::Linear(place),
                None => Meaning::Nothing,
            },
        }
    }

    // A name means the model of that name, else the table, else the linear layer.
    fn meaning(&self, name: &[u8]) -> Meaning
        ensures means { (file : SpecFile) (library : Library) → IsCatalog file library self.now → placed_at file library result ≡ placed file library name.now }
        ensures within { (file : SpecFile) (library : Library) → IsCatalog file library self.now → IsMeaningIn file library result }
        ensures other { result ≢ CellOf }
    {
        match self.models.find(name) {
            Some(place) => Meaning::Model(place),
            None => self.entry(name),
        }
    }

    // What a statement is.
    pub(crate) fn statement(&self, s: &Statement) -> Meaning
        ensures means { (file : SpecFile) (library : Library) (all : List Bytes) → IsCatalog file library self.now → Means file library (statement_of all s.now) result }
        ensures within { (file : SpecFile) (library : Library) → IsCatalog file library self.now → IsMeaningIn file library result }
    {
        match s {
            Statement::Names { .. } | Statement::Latch { .. } => Meaning::Cell,
            Statement::Subckt { model, .. } => self.meaning(model.bytes()),
        }
    }
}
