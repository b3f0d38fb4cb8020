// The lines of the netlist of the design, kind by kind.
ghost use Rattle.std.specs.Prelude.{◌≡◌, ◌*◌, ◌<◌, ◌∷◌, ◌++◌, OnOk};
ghost use Rattle.program_spec.specs.Demo.{numbered, state_bits};
ghost use Rattle.demo_laws.specs.DemoLaws.{IsDemoSize};
ghost use Rattle.demo_design.specs.Texts.{box_text, choice_text, copy_text, head_text, latch_text, names_text, port_text, ports_text};

use crate::names::{moved_to, push_name};
use std::alloc::AllocError;

// A name behind another word.
fn push_word(text: &mut Vec<u8>, letter: u8, i: u32) -> Result<(), AllocError>
    ensures { OnOk result (text.new.items ≡ text.old.items ++ 32 ∷ numbered letter i) }
{
    text.push(b' ')?;
    push_name(text, letter, i)
}

// Such a name for each state bit.
fn push_words(text: &mut Vec<u8>, letter: u8, n: u32) -> Result<(), AllocError>
    requires { IsDemoSize n }
    ensures { OnOk result (text.new.items ≡ text.old.items ++ names_text letter (state_bits n)) }
{
    for i in 0..4 * n {
        push_word(text, letter, i)?;
    }
    Ok(())
}

/// Appends the lines of the model, its inputs and its outputs.
pub(crate) fn push_head(text: &mut Vec<u8>, n: u32) -> Result<(), AllocError>
    requires { IsDemoSize n }
    ensures { OnOk result (text.new.items ≡ text.old.items ++ head_text n) }
{
    text.extend_from_slice(b".model demo\n.inputs load")?;
    push_words(text, b'p', n)?;
    text.extend_from_slice(b"\n.outputs")?;
    push_words(text, b'c', n)?;
    text.push(b'\n')?;
    Ok(())
}

/// Appends the line of a latch. Its init is 0.
pub(crate) fn push_latch(text: &mut Vec<u8>, i: u32) -> Result<(), AllocError>
    ensures { OnOk result (text.new.items ≡ text.old.items ++ latch_text i) }
{
    text.extend_from_slice(b".latch")?;
    push_word(text, b'n', i)?;
    push_word(text, b's', i)?;
    text.extend_from_slice(b" 0\n")
}

// Port i of S-box j, with the net at its place.
fn push_port(text: &mut Vec<u8>, port: u8, letter: u8, j: u32, i: u32) -> Result<(), AllocError>
    requires box_number { j < 64 }
    requires port_number { i < 4 }
    ensures { OnOk result (text.new.items ≡ text.old.items ++ port_text port letter j i) }
{
    push_word(text, port, i)?;
    text.push(b'=')?;
    push_name(text, letter, 4 * j + i)
}

// The four inputs of S-box j, or its four outputs.
fn push_ports(text: &mut Vec<u8>, port: u8, letter: u8, j: u32) -> Result<(), AllocError>
    requires { j < 64 }
    ensures { OnOk result (text.new.items ≡ text.old.items ++ ports_text port letter j) }
{
    for i in 0..4u32 {
        push_port(text, port, letter, j, i)?;
    }
    Ok(())
}

/// Appends the line of S-box j.
pub(crate) fn push_box(text: &mut Vec<u8>, j: u32) -> Result<(), AllocError>
    requires { j < 64 }
    ensures { OnOk result (text.new.items ≡ text.old.items ++ box_text j) }
{
    text.extend_from_slice(b".subckt present")?;
    push_ports(text, b'i', b's', j)?;
    push_ports(text, b'o', b'b', j)?;
    text.push(b'\n')?;
    Ok(())
}

/// Appends the lines by which the next value of a bit is chosen: the loaded one where `load` is 1, and else bit i behind
/// the S-boxes.
pub(crate) fn push_choice(text: &mut Vec<u8>, n: u32, i: u32) -> Result<(), AllocError>
    requires size { IsDemoSize n }
    requires bit { i < 4 * n }
    ensures { OnOk result (text.new.items ≡ text.old.items ++ choice_text n i) }
{
    let e = moved_to(n, i);
    text.extend_from_slice(b".names load")?;
    push_word(text, b'p', e)?;
    push_word(text, b'b', i)?;
    push_word(text, b'n', e)?;
    text.extend_from_slice(b"\n11- 1\n0-1 1\n")?;
    Ok(())
}

/// Appends the lines of an output, a copy of its state bit.
pub(crate) fn push_copy(text: &mut Vec<u8>, i: u32) -> Result<(), AllocError>
    ensures { OnOk result (text.new.items ≡ text.old.items ++ copy_text i) }
{
    text.extend_from_slice(b".names")?;
    push_word(text, b's', i)?;
    push_word(text, b'c', i)?;
    text.extend_from_slice(b"\n1 1\n")
}
