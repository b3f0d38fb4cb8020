// What is known of all statements of a file.
ghost use Rattle.std.specs.Prelude.{◌≡◌, ◌++◌, map, option_to_list, IfOk, OnOk, IsTrue, All};
ghost use Rattle.std.specs.List.{AllZip, filter_map};
ghost use Rattle.netlist_spec.specs.FileRules.{IsFile};
ghost use Rattle.netlist_spec.specs.Netlist.{are_distinct};
ghost use Rattle.blif_read.specs.declared.file.Model.{Model as ReadModel};
ghost use Rattle.blif_read.specs.Ids.{HasIds};
ghost use Rattle.blif_read.specs.View.{file_of, model_of};
ghost use Rattle.sbox_table.specs.declared.table.NamedTable.{NamedTable as ReadTable};
ghost use Rattle.linear_layer.specs.declared.layer.NamedLinear.{NamedLinear as ReadLinear};
ghost use Rattle.source_nets.specs.declared.types.ModelSurvey.{ModelSurvey as Surveyed};
ghost use Rattle.source_nets.specs.Catalog.{IsCatalog};
ghost use Rattle.source_nets.specs.Graph.{model_place};
ghost use Rattle.source_nets.specs.Ports.{IsSource, source_file, source_library};
ghost use Rattle.source_nets.specs.Survey.{IsModelSurvey, IsSurvey, library_of};

use crate::catalog::Catalog;
use crate::ports::port_marks;
use crate::statement::push_nets;
use crate::{Meaning, ModelSurvey, NetRows, PortKind, Source, Survey};
use blif_read::{File, Model};
use linear_layer::NamedLinear;
use sbox_table::NamedTable;
use std::alloc::{AllocError, Global};

fn survey_model(
    alloc: Global,
    source: &Source,
    catalog: &Catalog,
    m: &Model,
) -> Result<ModelSurvey, AllocError>
    requires source { IsSource source.now }
    requires catalog { IsCatalog (source_file source.now) (source_library source.now) catalog.now }
    requires ids { HasIds m.now }
    ensures { IfOk result (λ survey. IsModelSurvey (source_file source.now) (source_library source.now) (model_of m.now) survey) }
{
    let mut meanings = Vec::new(alloc);
    let mut reads = NetRows::new(alloc);
    let mut drives = NetRows::new(alloc);
    for s in &m.statements {
        let meaning = catalog.statement(&s.what);
        meanings.push(meaning)?;
        push_nets(alloc, source, PortKind::Input, meaning, &s.what, &mut reads)?;
        push_nets(
            alloc,
            source,
            PortKind::Output,
            meaning,
            &s.what,
            &mut drives,
        )?;
    }
    Ok(ModelSurvey {
        meanings,
        reads,
        drives,
    })
}

fn survey_models(
    alloc: Global,
    source: &Source,
    catalog: &Catalog,
) -> Result<Vec<ModelSurvey>, AllocError>
    requires source { IsSource source.now }
    requires catalog { IsCatalog (source_file source.now) (source_library source.now) catalog.now }
    ensures { IfOk result (λ models. AllZip (λ (m : ReadModel) survey. IsModelSurvey (source_file source.now) (source_library source.now) (model_of m) survey) source.now.file.now.models.items models.items) }
{
    let mut models = Vec::new(alloc);
    for m in &source.file.models {
        models.push(survey_model(alloc, source, catalog, m)?)?;
    }
    Ok(models)
}

// Appends the place of the model that is placed, if one is.
fn push_place(row: &mut Vec<usize>, meaning: Meaning) -> Result<(), AllocError>
    ensures { OnOk result (row.new.items ≡ row.old.items ++ option_to_list (model_place meaning)) }
{
    if let Meaning::Model(k) = meaning {
        row.push(k)?;
    }
    Ok(())
}

// The places of the models that are placed.
fn placed_models(alloc: Global, meanings: &[Meaning]) -> Result<Vec<usize>, AllocError>
    ensures { IfOk result (λ row. row.items ≡ filter_map model_place meanings.now) }
{
    let mut row = Vec::new(alloc);
    for meaning in meanings {
        push_place(&mut row, *meaning)?;
    }
    Ok(row)
}

fn graph_of(alloc: Global, models: &[ModelSurvey]) -> Result<Vec<Vec<usize>>, AllocError>
    ensures { IfOk result (λ graph. map (λ row. row.items) graph.items ≡ map (λ (s : Surveyed). filter_map model_place s.meanings.items) models.now) }
{
    let mut graph = Vec::new(alloc);
    for m in models {
        graph.push(placed_models(alloc, &m.meanings)?)?;
    }
    Ok(graph)
}

/// What the statements of a file mean, and which nets they read and drive. The names of the tables are distinct, and those
/// of the linear layers.
pub fn survey(
    alloc: Global,
    file: &File,
    tables: &[NamedTable],
    linears: &[NamedLinear],
) -> Result<Survey, AllocError>
    requires ids { All HasIds file.now.models.items }
    requires is_file { IsFile (file_of file.now) }
    requires tables { IsTrue (are_distinct (map (λ (t : ReadTable). t.name) tables.now)) }
    requires linears { IsTrue (are_distinct (map (λ (l : ReadLinear). l.name) linears.now)) }
    ensures { IfOk result (λ survey. IsSurvey (file_of file.now) (library_of tables.now linears.now) survey) }
{
    let ports = port_marks(alloc, &file.models)?;
    let catalog = Catalog::new(alloc, file, tables, linears)?;
    let source = Source {
        file,
        tables,
        linears,
        ports: &ports,
    };
    let models = survey_models(alloc, &source, &catalog)?;
    let graph = graph_of(alloc, &models)?;
    Ok(Survey { models, graph })
}
