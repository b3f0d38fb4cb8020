// The stimulus of the design.
ghost use Rattle.std.specs.Prelude.{◌≡◌, ◌++◌, ◌%◌, ◌==◌, ◌&&◌, map, if◌then◌else◌, IfOk, OnOk};
ghost use Rattle.netlist_spec.specs.Statements.{bit_char};
ghost use Rattle.program_spec.specs.Demo.{idle_cycle, loading_cycle, state_bits};
ghost use Rattle.demo_laws.specs.DemoFiles.{cycle_text, demo_stimulus};
ghost use Rattle.demo_laws.specs.DemoLaws.{IsDemoSize};

use std::alloc::{AllocError, Global};

fn char_of(bit: bool) -> u8
    ensures { result ≡ bit_char bit }
{
    if bit { b'1' } else { b'0' }
}

// Whether input `p` with this number is 1: in the loading cycle, at a multiple of 3.
fn is_loaded(loads: bool, i: u32) -> bool
    ensures { result ≡ (loads && (i % 3 == 0)) }
{
    loads && i % 3 == 0
}

/// Appends a bit for each input `p`: in the loading cycle those at a multiple of 3 are 1, and else all are 0.
pub(crate) fn push_bits(text: &mut Vec<u8>, n: u32, loads: bool) -> Result<(), AllocError>
    requires { IsDemoSize n }
    ensures { OnOk result (text.new.items ≡ text.old.items ++ map (λ i. bit_char (loads && (i % 3 == 0))) (state_bits n)) }
{
    for i in 0..4 * n {
        text.push(char_of(is_loaded(loads, i)))?;
    }
    Ok(())
}

/// Appends the line of a cycle: the loading one, or an idle one.
pub(crate) fn push_cycle(text: &mut Vec<u8>, n: u32, loads: bool) -> Result<(), AllocError>
    requires { IsDemoSize n }
    ensures { OnOk result (text.new.items ≡ text.old.items ++ cycle_text (if loads then loading_cycle n else idle_cycle n)) }
{
    text.push(char_of(loads))?;
    push_bits(text, n, loads)?;
    text.push(b'\n')?;
    Ok(())
}

/// The stimulus of the design: a line for each of its eight cycles.
pub(crate) fn stimulus_text(alloc: Global, n: u32) -> Result<Vec<u8>, AllocError>
    requires { IsDemoSize n }
    ensures { IfOk result (λ text. text.items ≡ demo_stimulus n) }
{
    let mut text = Vec::new(alloc);
    for c in 0..8u32 {
        push_cycle(&mut text, n, c == 0)?;
    }
    Ok(text)
}
