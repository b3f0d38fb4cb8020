// The order of each model that is used, or the first loop.
ghost use Rattle.std.specs.Prelude.{◌≡◌, ◌<◌, List, Some, false, length, slice_get, IfOk, IsTrue};
ghost use Rattle.netlist_spec.specs.Netlist.{Model as SpecModel, Name as Bytes};
ghost use Rattle.netlist_spec.specs.Sound.{HasOneDriverEach, IsDrivenWhereRead, IsLoop, IsUsed};
ghost use Rattle.netlist_spec.specs.SoundFaults.{IsFirstUsed, IsWalkedLoop};
ghost use Rattle.source_nets.specs.Ports.{IsSource, source_file, source_library};
ghost use Rattle.source_nets.specs.Survey.{AreUsedMarks, IsSurvey};
ghost use Rattle.source_loops.specs.Orders.{AreOrders};
ghost use Rattle.source_loops.specs.Settled.{HasNoPlaces, IfLoop, IfOrders, IsModelSettling};

use crate::drivers::net_drivers;
use crate::nets::nets_of;
use crate::told::names_of;
use imp_text::Names;
use net_order::{settle, walk};
use source_nets::{Source, Survey};
use std::alloc::{AllocError, Global};

/// For each model an order of its statements that combine, by their places, or a loop by the names of its nets. A model that
/// isn't used has no places.
#[derive(Drop)]
pub enum Settling {
    Orders(Vec<Vec<usize>>),
    Loop(Names),
}

// The same of one model.
#[derive(Drop)]
pub(crate) enum ModelSettling {
    Order(Vec<usize>),
    Loop(Names),
}

fn settle_model(
    alloc: Global,
    source: &Source,
    survey: &Survey,
    place: usize,
) -> Result<ModelSettling, AllocError>
    requires source { IsSource source.now }
    requires survey { IsSurvey (source_file source.now) (source_library source.now) survey.now }
    requires place { place < length source.now.file.now.models.items }
    requires drivers { (m : SpecModel) → slice_get (source_file source.now).models place ≡ Some m → HasOneDriverEach (source_file source.now) (source_library source.now) m }
    requires driven { (m : SpecModel) → slice_get (source_file source.now).models place ≡ Some m → IsDrivenWhereRead (source_file source.now) (source_library source.now) m }
    ensures { IfOk result (λ s. (m : SpecModel) → slice_get (source_file source.now).models place ≡ Some m → IsModelSettling (source_file source.now) (source_library source.now) m s) }
{
    let m = &source.file.models[place];
    let found = &survey.models[place];
    let nets = nets_of(alloc, m, found)?;
    let settled = settle(
        alloc,
        &nets.reads,
        &nets.drives,
        &nets.combines,
        &nets.given,
    )?;
    let drivers = net_drivers(alloc, m, found)?;
    match walk(alloc, &settled.left, &nets.reads, &drivers)? {
        None => Ok(ModelSettling::Order(settled.order)),
        Some(told) => Ok(ModelSettling::Loop(names_of(alloc, &m.names, &told)?)),
    }
}

// The same, and no places for a model that isn't used.
fn settle_used(
    alloc: Global,
    source: &Source,
    survey: &Survey,
    place: usize,
    is_used: bool,
) -> Result<ModelSettling, AllocError>
    requires source { IsSource source.now }
    requires survey { IsSurvey (source_file source.now) (source_library source.now) survey.now }
    requires place { place < length source.now.file.now.models.items }
    requires drivers { IsTrue is_used → (m : SpecModel) → slice_get (source_file source.now).models place ≡ Some m → HasOneDriverEach (source_file source.now) (source_library source.now) m }
    requires driven { IsTrue is_used → (m : SpecModel) → slice_get (source_file source.now).models place ≡ Some m → IsDrivenWhereRead (source_file source.now) (source_library source.now) m }
    ensures used { IfOk result (λ s. IsTrue is_used → (m : SpecModel) → slice_get (source_file source.now).models place ≡ Some m → IsModelSettling (source_file source.now) (source_library source.now) m s) }
    ensures unused { IfOk result (λ s. is_used ≡ false → HasNoPlaces s) }
{
    if is_used {
        settle_model(alloc, source, survey, place)
    } else {
        Ok(ModelSettling::Order(Vec::new(alloc)))
    }
}

/// Orders the statements of each model that is used, so that each reads only what is given or what earlier ones drive. Where
/// that can't be done, the first such model in file order has a loop: a walk starts at the first net of the model that can't
/// be settled, goes on to the first such net that its driver reads, and tells the nets from the first one on that it meets
/// twice. The work is linear in the words of the used models.
pub fn settle_models(
    alloc: Global,
    source: &Source,
    survey: &Survey,
    used: &[bool],
) -> Result<Settling, AllocError>
    requires source { IsSource source.now }
    requires survey { IsSurvey (source_file source.now) (source_library source.now) survey.now }
    requires used { AreUsedMarks (source_file source.now) used.now }
    requires drivers { (m : SpecModel) → IsUsed (source_file source.now) m → HasOneDriverEach (source_file source.now) (source_library source.now) m }
    requires driven { (m : SpecModel) → IsUsed (source_file source.now) m → IsDrivenWhereRead (source_file source.now) (source_library source.now) m }
    ensures orders { IfOk result (λ s. IfOrders s (AreOrders (source_file source.now) (source_library source.now) used.now)) }
    ensures no_loop { IfOk result (λ s. IfOrders s (λ orders. (m : SpecModel) → IsUsed (source_file source.now) m → (ns : List Bytes) → IsLoop (source_file source.now) (source_library source.now) m ns → ⊥)) }
    ensures told { IfOk result (λ s. IfLoop s (IsFirstUsed (source_file source.now) (λ m ns. IsWalkedLoop (source_file source.now) (source_library source.now) m ns))) }
{
    let mut orders = Vec::new(alloc);
    for (place, is_used) in used.iter().enumerate() {
        match settle_used(alloc, source, survey, place, *is_used)? {
            ModelSettling::Order(order) => orders.push(order)?,
            ModelSettling::Loop(nets) => return Ok(Settling::Loop(nets)),
        }
    }
    Ok(Settling::Orders(orders))
}
