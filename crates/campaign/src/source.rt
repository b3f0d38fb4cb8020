// What the source shows.
ghost use Rattle.std.specs.Prelude.{◌≡◌, IfOk};
ghost use Rattle.netlist_spec.specs.Gates.{LatchRow as Row};
ghost use Rattle.std.specs.Prelude.{map};
ghost use Rattle.campaign.specs.Runs.{Shows};

use gate_net::Machine;
use sim_text::Stimulus;
use std::alloc::{AllocError, Global};

// The bits that the latches start with.
fn inits(alloc: Global, source: &Machine) -> Result<Vec<bool>, AllocError>
    ensures { IfOk result (λ bits. bits.items ≡ map (λ (l : Row). l.init) source.now.latches) }
{
    let mut bits = Vec::new(alloc);
    for latch in &source.latches {
        bits.push(latch.init)?;
    }
    Ok(bits)
}

/// The outputs of the source in each cycle.
pub(crate) fn shown_rows(
    alloc: Global,
    source: &Machine,
    stimulus: &Stimulus,
) -> Result<Vec<Vec<bool>>, AllocError>
    requires { stimulus.now.inputs ≡ source.now.inputs }
    ensures { IfOk result (λ rows. Shows source.now stimulus.now.cycles rows.items) }
{
    let mut x = vec![in alloc; false; source.inputs as usize]?;
    let mut state = inits(alloc, source)?;
    let mut row = vec![in alloc; false; source.net.len() as usize]?;
    let mut rows = Vec::new(alloc);
    for c in 0..stimulus.cycles() {
        let mut out = vec![in alloc; false; source.outputs.len()]?;
        stimulus.row(c, &mut x);
        source.step_into(&x, &mut state, &mut row, &mut out);
        rows.push(out)?;
    }
    Ok(rows)
}
