// The netlist of the design.
ghost use Rattle.std.specs.Prelude.{◌≡◌, ◌++◌, IfOk, OnOk};
ghost use Rattle.std.specs.List.{flat_map};
ghost use Rattle.program_spec.specs.Demo.{demo_netlist, state_bits};
ghost use Rattle.demo_laws.specs.DemoFile.{boxes};
ghost use Rattle.demo_laws.specs.DemoLaws.{IsDemoSize};
ghost use Rattle.demo_design.specs.Texts.{box_text, choice_text, copy_text, latch_text};

use crate::lines::{push_box, push_choice, push_copy, push_head, push_latch};
use std::alloc::{AllocError, Global};

// A latch for each state bit.
fn push_latches(text: &mut Vec<u8>, n: u32) -> Result<(), AllocError>
    requires { IsDemoSize n }
    ensures { OnOk result (text.new.items ≡ text.old.items ++ flat_map latch_text (state_bits n)) }
{
    for i in 0..4 * n {
        push_latch(text, i)?;
    }
    Ok(())
}

// The S-boxes.
fn push_boxes(text: &mut Vec<u8>, n: u32) -> Result<(), AllocError>
    requires { IsDemoSize n }
    ensures { OnOk result (text.new.items ≡ text.old.items ++ flat_map box_text (boxes n)) }
{
    for j in 0..n {
        push_box(text, j)?;
    }
    Ok(())
}

// The next value of each state bit.
fn push_choices(text: &mut Vec<u8>, n: u32) -> Result<(), AllocError>
    requires { IsDemoSize n }
    ensures { OnOk result (text.new.items ≡ text.old.items ++ flat_map (choice_text n) (state_bits n)) }
{
    for i in 0..4 * n {
        push_choice(text, n, i)?;
    }
    Ok(())
}

// An output for each state bit.
fn push_copies(text: &mut Vec<u8>, n: u32) -> Result<(), AllocError>
    requires { IsDemoSize n }
    ensures { OnOk result (text.new.items ≡ text.old.items ++ flat_map copy_text (state_bits n)) }
{
    for i in 0..4 * n {
        push_copy(text, i)?;
    }
    Ok(())
}

/// The netlist of the design.
pub(crate) fn netlist_text(alloc: Global, n: u32) -> Result<Vec<u8>, AllocError>
    requires { IsDemoSize n }
    ensures { IfOk result (λ text. text.items ≡ demo_netlist n) }
{
    let mut text = Vec::new(alloc);
    push_head(&mut text, n)?;
    push_latches(&mut text, n)?;
    push_boxes(&mut text, n)?;
    push_choices(&mut text, n)?;
    push_copies(&mut text, n)?;
    text.extend_from_slice(b".end\n")?;
    Ok(text)
}
