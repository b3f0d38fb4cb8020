// The plain size of a guard of a source, from its file alone or from what a check of it gave.
ghost use Rattle.std.specs.Prelude.{◌≡◌, ◌<◌, ◌≤◌, Some, ℕ, All, IfNone, IfOk, IfSome};
ghost use Rattle.netlist_spec.specs.FileRules.{IsFile};
ghost use Rattle.netlist_spec.specs.Models.{main_model};
ghost use Rattle.netlist_spec.specs.Netlist.{Model as SpecModel};
ghost use Rattle.netlist_spec.specs.Sound.{IsSound};
ghost use Rattle.blif_read.specs.Ids.{HasIds};
ghost use Rattle.blif_read.specs.View.{file_of};
ghost use Rattle.source_nets.specs.Ports.{source_file, source_library};
ghost use Rattle.source_nets.specs.Survey.{IsSurvey};
ghost use Rattle.source_check.specs.Checked.{IsChecked};
ghost use Rattle.plain_size.specs.Sizes.{AreMainCosts, IsMainPlain, IsPartitioned};

use crate::size::size_by_costs;
use blif_read::File;
use encode_state::types::Layout;
use settings::Settings;
use source_check::Checked;
use source_cost::main_costs;
use source_models::{Recursion, recursion, used_models};
use source_nets::{Source, Survey, port_marks, survey};
use std::alloc::{AllocError, Global};

/// The plain size of a guard of the main model of a file, in cells. The file is sound with the library of the settings, and
/// the layout is one of its main model. The answer is None exactly where the size is above 1,000,000.
pub fn plain_size(
    alloc: Global,
    file: &File,
    s: &Settings,
    l: &Layout,
) -> Result<Option<u32>, AllocError>
    requires ids { All HasIds file.now.models.items }
    requires is_file { IsFile (file_of file.now) }
    requires sound { IsSound (file_of file.now) s.now.library }
    requires layout { (m : SpecModel) → main_model (file_of file.now) ≡ Some m → IsPartitioned m s.now.code l.now }
    ensures plain { IfOk result (λ size. IfSome size (λ n. IsMainPlain (file_of file.now) s.now l.now n × (n ≤ 1000000))) }
    ensures large { IfOk result (λ size. IfNone size ((n : ℕ) × IsMainPlain (file_of file.now) s.now l.now n × (1000000 < n))) }
{
    let ports = port_marks(alloc, &file.models)?;
    let source = Source {
        file,
        tables: &s.tables,
        linears: &s.linears,
        ports: &ports,
    };
    let survey = survey(alloc, file, source.tables, source.linears)?;
    let costs = source_costs(alloc, &source, &survey)?;
    size_by_costs(alloc, file, &survey, &costs, s, l)
}

/// The plain size as `plain_size` gives it, for a caller that has what the check of the file gave: nothing is surveyed or
/// costed again.
pub fn size_of_checked(
    alloc: Global,
    file: &File,
    checked: &Checked,
    s: &Settings,
    l: &Layout,
) -> Result<Option<u32>, AllocError>
    requires ids { All HasIds file.now.models.items }
    requires is_file { IsFile (file_of file.now) }
    requires sound { IsSound (file_of file.now) s.now.library }
    requires checked { IsChecked (file_of file.now) s.now.library checked.now }
    requires layout { (m : SpecModel) → main_model (file_of file.now) ≡ Some m → IsPartitioned m s.now.code l.now }
    ensures plain { IfOk result (λ size. IfSome size (λ n. IsMainPlain (file_of file.now) s.now l.now n × (n ≤ 1000000))) }
    ensures large { IfOk result (λ size. IfNone size ((n : ℕ) × IsMainPlain (file_of file.now) s.now l.now n × (1000000 < n))) }
{
    size_by_costs(alloc, file, &checked.survey, &checked.costs, s, l)
}

// What each statement of the main model costs. No model of a sound file contains itself, so its used models have an order.
fn source_costs(alloc: Global, source: &Source, survey: &Survey) -> Result<Vec<u32>, AllocError>
    requires is_file { IsFile (source_file source.now) }
    requires sound { IsSound (source_file source.now) (source_library source.now) }
    requires survey { IsSurvey (source_file source.now) (source_library source.now) survey.now }
    ensures { IfOk result (λ costs. AreMainCosts (source_file source.now) (source_library source.now) costs.items) }
{
    let used = used_models(alloc, source, survey)?;
    match recursion(alloc, source, survey, &used)? {
        Recursion::Order(order) => main_costs(alloc, source, survey, &order),
        Recursion::ContainsItself(_) => unreachable!(),
    }
}
