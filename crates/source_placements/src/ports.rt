// Ports of `.subckt` that are wrong or not given.
ghost use Rattle.std.specs.Prelude.{◌≡◌, List, map, IfOk};
ghost use Rattle.netlist_spec.specs.FileOrder.{a_statement};
ghost use Rattle.netlist_spec.specs.FileRules.{IsFile};
ghost use Rattle.netlist_spec.specs.Netlist.{Name as Bytes};
ghost use Rattle.netlist_spec.specs.SoundFaults.{bad_port_at, bad_port_in, bad_port_of, with_model};
ghost use Rattle.blif_read.specs.View.{bind_of, model_of, statement_of};
ghost use Rattle.line_order.specs.Merge.{AreByLine};
ghost use Rattle.source_nets.specs.Ports.{IsSource, source_file, source_library};
ghost use Rattle.source_nets.specs.Survey.{AreUsedMarks, IsMeaningIn, IsModelSurvey, IsSurvey, Means, placed_at};
ghost use Rattle.source_tests.specs.Found.{IsFound};

use crate::formals::bad_formal;
use crate::missing::missing_port;
use blif_read::{Bind, Model, Name, Statement};
use source_nets::{Meaning, ModelSurvey, NameIndex, Source, Survey};
use std::alloc::{AllocError, Global};

/// The name of the first `.subckt` with a port that is wrong or not given, of the first used model that has one, and that port.
/// Word by word a formal is wrong where it is no port of what is placed or stood before. Where all words are right it is the
/// first input port that isn't given, in the order of the ports.
pub fn first_bad_port(
    alloc: Global,
    source: &Source,
    survey: &Survey,
    used: &[bool],
) -> Result<Option<(Name, Name)>, AllocError>
    requires source { IsSource source.now }
    requires is_file { IsFile (source_file source.now) }
    requires survey { IsSurvey (source_file source.now) (source_library source.now) survey.now }
    requires used { AreUsedMarks (source_file source.now) used.now }
    ensures exact { IfOk result (IsFound (source_file source.now) (bad_port_in (source_file source.now) (source_library source.now))) }
{
    for (i, m) in source.file.models.iter().enumerate() {
        let is_used = used[i];
        if is_used {
            if let Some(found) = bad_port(alloc, source, m, &survey.models[i])? {
                return Ok(Some(found));
            }
        }
    }
    Ok(None)
}

// The first such port of a model.
fn bad_port(
    alloc: Global,
    source: &Source,
    m: &Model,
    survey: &ModelSurvey,
) -> Result<Option<(Name, Name)>, AllocError>
    requires source { IsSource source.now }
    requires survey { IsModelSurvey (source_file source.now) (source_library source.now) (model_of m.now) survey.now }
    requires by_line { AreByLine (model_of m.now) }
    ensures { IfOk result (λ found. found ≡ bad_port_in (source_file source.now) (source_library source.now) (model_of m.now)) }
{
    for (i, s) in m.statements.iter().enumerate() {
        if let Some(found) = bad_port_of_statement(alloc, source, survey.meaning(i), &s.what)? {
            return Ok(Some(found));
        }
    }
    Ok(None)
}

// The first such port of a statement.
fn bad_port_of_statement(
    alloc: Global,
    source: &Source,
    meaning: Meaning,
    s: &Statement,
) -> Result<Option<(Name, Name)>, AllocError>
    requires source { IsSource source.now }
    requires meaning { IsMeaningIn (source_file source.now) (source_library source.now) meaning }
    ensures { IfOk result (λ found. (all : List Bytes) → Means (source_file source.now) (source_library source.now) (statement_of all s.now) meaning
        → found ≡ bad_port_at (source_file source.now) (source_library source.now) (a_statement (statement_of all s.now))) }
{
    match s {
        Statement::Subckt { model, binds } => match port_fault(alloc, source, meaning, binds)? {
            Some(formal) => Ok(Some((Name::new(alloc, model.bytes())?, formal))),
            None => Ok(None),
        },
        _ => Ok(None),
    }
}

// The first such port among the words of a `.subckt` of that meaning.
fn port_fault(
    alloc: Global,
    source: &Source,
    meaning: Meaning,
    binds: &[Bind],
) -> Result<Option<Name>, AllocError>
    requires source { IsSource source.now }
    requires meaning { IsMeaningIn (source_file source.now) (source_library source.now) meaning }
    ensures { IfOk result (λ found. (all : List Bytes) (name : Bytes)
        → with_model name found ≡ bad_port_of (source_file source.now) (source_library source.now) (placed_at (source_file source.now) (source_library source.now) meaning) name (map (bind_of all) binds.now)) }
{
    if let Meaning::Cell | Meaning::Nothing = meaning {
        return Ok(None);
    }
    let mut given = NameIndex::new(alloc);
    if let Some(formal) = bad_formal(alloc, source, meaning, binds, &mut given)? {
        return Ok(Some(formal));
    }
    missing_port(alloc, source, meaning, &given)
}
