// The main model of a source, and its names.
ghost use Rattle.std.specs.Prelude.{◌≡◌, IfOk};
ghost use Rattle.netlist_spec.specs.Netlist.{Model as SpecModel};
ghost use Rattle.netlist_spec.specs.Sound.{IsMain};
ghost use Rattle.blif_read.specs.Ids.{HasIds, IsIdOf};
ghost use Rattle.blif_read.specs.View.{model_of, name_at};
ghost use Rattle.source_nets.specs.Ports.{source_file, source_library};
ghost use Rattle.source_nets.specs.Survey.{IsModelSurvey};
ghost use Rattle.source_check.specs.Steps.{IsTestable};

use blif_read::{Model, Name, NameId, Names};
use source_nets::{ModelSurvey, Source, Survey};
use std::alloc::{AllocError, Global};

// The main model with what is known of its statements.
pub(crate) fn main_model<'a>(source: &'a Source, survey: &'a Survey) -> (&'a Model, &'a ModelSurvey)
    requires { IsTestable source.now survey.now }
    ensures main { IsMain (source_file source.now) (model_of result.0.now) }
    ensures ids { HasIds result.0.now }
    ensures survey { IsModelSurvey (source_file source.now) (source_library source.now) (model_of result.0.now) result.1.now }
{
    (&source.file.models[0], &survey.models[0])
}

// The name of a net.
pub(crate) fn name_of(alloc: Global, names: &Names, net: NameId) -> Result<Name, AllocError>
    requires { IsIdOf names.now net }
    ensures { IfOk result (λ name. name ≡ name_at names.now net) }
{
    // Each of the names has 1 to 255 bytes.
    prove!(net.0 < names.len());
    Name::new(alloc, names.get(net))
}
