// How large a model is.
ghost use Rattle.std.specs.Prelude.{◌≡◌, length, min, count_by, not, nat_lt, None, Some, option_map, IfOk, if◌then◌else◌};
ghost use Rattle.std.specs.List.{list_any};
ghost use Rattle.netlist_spec.specs.Covers.{Library};
ghost use Rattle.netlist_spec.specs.Lines.{is_empty};
ghost use Rattle.netlist_spec.specs.Models.{latches_of};
ghost use Rattle.netlist_spec.specs.Netlist.{File, model_inputs, model_outputs, model_latches, source_cost};
ghost use Rattle.netlist_spec.specs.Size.{whole_cost};
ghost use Rattle.netlist_spec.specs.SoundFaults.{too_large_in};
ghost use Rattle.imp_text.specs.Quantities.{quantity_of};
ghost use Rattle.blif_read.specs.declared.file.Located.{Located as ReadLocated};
ghost use Rattle.blif_read.specs.Ids.{HasIds};
ghost use Rattle.blif_read.specs.View.{model_of};
ghost use Rattle.main_check.specs.Counts.{is_latch as is_latch_of};

use blif_read::{Located, Model, Statement, What};
use line_order::data_inputs;
use std::alloc::{AllocError, Global};

// The most data inputs, outputs and latches of a source.
const MOST_PORTS: usize = 4096;

// The most cells of a source.
const MOST_CELLS: u32 = 1_000_000;

/// The first count of the main model that passes its limit: data inputs, outputs, latches, and then the whole cost. The cost
/// may be cut off at 1,000,001.
pub fn too_large(alloc: Global, m: &Model, cost: u32) -> Result<Option<What>, AllocError>
    requires { HasIds m.now }
    ensures { IfOk result (λ what. (file : File) (library : Library) → cost ≡ min (whole_cost file library) 1000001
        → option_map quantity_of what ≡ too_large_in file library (model_of m.now)) }
{
    let inputs = data_inputs(alloc, m)?;
    let latches = latch_count(&m.statements);
    Ok(first_passed(inputs.len(), m.outputs.len(), latches, cost))
}

// The first of four counts that passes its limit.
fn first_passed(inputs: usize, outputs: usize, latches: usize, cost: u32) -> Option<What>
    ensures { option_map quantity_of result ≡ (if nat_lt 4096 inputs then Some model_inputs
        else if nat_lt 4096 outputs then Some model_outputs
        else if nat_lt 4096 latches then Some model_latches
        else if nat_lt 1000000 cost then Some source_cost
        else None) }
{
    if inputs > MOST_PORTS {
        Some(What::Inputs)
    } else if outputs > MOST_PORTS {
        Some(What::Outputs)
    } else if latches > MOST_PORTS {
        Some(What::Latches)
    } else if cost > MOST_CELLS {
        Some(What::Source)
    } else {
        None
    }
}

/// Whether a model has a latch.
pub fn has_latch(m: &Model) -> bool
    ensures { result ≡ not (is_empty (latches_of (model_of m.now))) }
{
    some_latch(&m.statements)
}

fn some_latch(statements: &[Located]) -> bool
    ensures { result ≡ list_any (λ (s : ReadLocated). is_latch_of s.what) statements.now }
{
    statements.iter().any(|s| is_latch(&s.what))
}

fn latch_count(statements: &[Located]) -> usize
    ensures { result ≡ count_by (λ (s : ReadLocated). is_latch_of s.what) statements.now }
{
    statements.iter().filter(|s| is_latch(&s.what)).count()
}

fn is_latch(s: &Statement) -> bool
    ensures { result ≡ is_latch_of s.now }
{
    matches!(s, Statement::Latch { .. })
}
