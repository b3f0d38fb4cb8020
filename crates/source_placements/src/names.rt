// Names of `.subckt` that mean nothing.
ghost use Rattle.std.specs.Prelude.{◌≡◌, List, length, IfOk};
ghost use Rattle.netlist_spec.specs.Covers.{Library};
ghost use Rattle.netlist_spec.specs.FileOrder.{a_statement};
ghost use Rattle.netlist_spec.specs.FileRules.{IsFile};
ghost use Rattle.netlist_spec.specs.Netlist.{File as SpecFile, Name as Bytes};
ghost use Rattle.netlist_spec.specs.SoundFaults.{no_such_model_at, no_such_model_in};
ghost use Rattle.blif_read.specs.View.{model_of, statement_of};
ghost use Rattle.line_order.specs.Merge.{AreByLine};
ghost use Rattle.source_nets.specs.Ports.{source_file, source_library};
ghost use Rattle.source_nets.specs.Survey.{AreUsedMarks, IsMeaningIn, IsModelSurvey, IsSurvey, Means};
ghost use Rattle.source_tests.specs.Found.{IsFound};

use blif_read::{Model, Name, Statement};
use source_nets::{Meaning, ModelSurvey, Source, Survey};
use std::alloc::{AllocError, Global};

/// The name in the first `.subckt` that names neither a model nor a library entry, of the first used model that has one.
pub fn first_no_such_model(
    alloc: Global,
    source: &Source,
    survey: &Survey,
    used: &[bool],
) -> Result<Option<Name>, AllocError>
    requires is_file { IsFile (source_file source.now) }
    requires survey { IsSurvey (source_file source.now) (source_library source.now) survey.now }
    requires used { AreUsedMarks (source_file source.now) used.now }
    ensures exact { IfOk result (IsFound (source_file source.now) (no_such_model_in (source_file source.now) (source_library source.now))) }
{
    for (i, m) in source.file.models.iter().enumerate() {
        let is_used = used[i];
        if is_used {
            if let Some(name) = no_such_model(alloc, m, &survey.models[i])? {
                return Ok(Some(name));
            }
        }
    }
    Ok(None)
}

// The first such name of a model.
fn no_such_model(alloc: Global, m: &Model, survey: &ModelSurvey) -> Result<Option<Name>, AllocError>
    requires size { length m.now.statements.items ≡ length survey.now.meanings.items }
    requires by_line { AreByLine (model_of m.now) }
    ensures { IfOk result (λ found. (file : SpecFile) (library : Library) → IsModelSurvey file library (model_of m.now) survey.now
        → found ≡ no_such_model_in file library (model_of m.now)) }
{
    for (i, s) in m.statements.iter().enumerate() {
        if let Some(name) = no_such_name(alloc, survey.meaning(i), &s.what)? {
            return Ok(Some(name));
        }
    }
    Ok(None)
}

// The name of a `.subckt`, if it means nothing.
fn no_such_name(alloc: Global, meaning: Meaning, s: &Statement) -> Result<Option<Name>, AllocError>
    ensures { IfOk result (λ found. (file : SpecFile) (library : Library) (all : List Bytes) → Means file library (statement_of all s.now) meaning → IsMeaningIn file library meaning
        → found ≡ no_such_model_at file library (a_statement (statement_of all s.now))) }
{
    match s {
        Statement::Subckt { model, .. } => match meaning {
            Meaning::Nothing => Ok(Some(Name::new(alloc, model.bytes())?)),
            _ => Ok(None),
        },
        _ => Ok(None),
    }
}
