// Texts of whole designs: a design of S-boxes and a permutation of each size, and the cipher PRESENT-80.

use std::alloc::{AllocError, Global};

// A line for each number below a count, the number at its end.
fn add_numbered(
    alloc: Global,
    text: &mut Vec<u8>,
    count: u32,
    start: &str,
) -> Result<(), AllocError> {
    for i in 0..count {
        let line = format!(in alloc; "{start}{i}\n")?;
        text.extend_from_slice(line.as_bytes())?;
    }
    Ok(())
}

// So many latches that start at 0.
fn add_latches(
    alloc: Global,
    text: &mut Vec<u8>,
    count: u32,
    stored: &str,
    shown: &str,
) -> Result<(), AllocError> {
    for i in 0..count {
        let line = format!(in alloc; ".latch {stored}{i} {shown}{i} 0\n")?;
        text.extend_from_slice(line.as_bytes())?;
    }
    Ok(())
}

// So many S-boxes side by side, from the nets of a letter to the nets `b0`, `b1`, ..
fn add_boxes(
    alloc: Global,
    text: &mut Vec<u8>,
    count: u32,
    letter: &str,
) -> Result<(), AllocError> {
    for j in 0..count {
        let a = j.wrapping_mul(4);
        let (b, c, d) = (a.wrapping_add(1), a.wrapping_add(2), a.wrapping_add(3));
        let inputs = format!(in alloc;
            "i0={letter}{a} i1={letter}{b} i2={letter}{c} i3={letter}{d}"
        )?;
        let outputs = format!(in alloc; "o0=b{a} o1=b{b} o2=b{c} o3=b{d}")?;
        let line = format!(in alloc; ".subckt present {inputs} {outputs}\n")?;
        text.extend_from_slice(line.as_bytes())?;
    }
    Ok(())
}

// Where the permutation behind so many S-boxes moves a bit.
fn moved(boxes: u32, i: u32) -> u32 {
    let last = boxes.wrapping_mul(4).wrapping_sub(1);
    if i == last {
        return i;
    }
    boxes.wrapping_mul(i).checked_rem(last).unwrap_or(0)
}

// What each state bit stores: an input where `load` is 1, and else a moved output of the S-boxes.
fn add_permutation(
    alloc: Global,
    text: &mut Vec<u8>,
    boxes: u32,
    stored: &str,
) -> Result<(), AllocError> {
    for i in 0..boxes.wrapping_mul(4) {
        let e = moved(boxes, i);
        let cell = format!(in alloc; ".names load p{e} b{i} {stored}{e}\n11- 1\n0-1 1\n")?;
        text.extend_from_slice(cell.as_bytes())?;
    }
    Ok(())
}

// So many nets of a letter, each the same as a net `s0`, `s1`, ..
fn add_copies(
    alloc: Global,
    text: &mut Vec<u8>,
    count: u32,
    letter: &str,
) -> Result<(), AllocError> {
    for i in 0..count {
        let cell = format!(in alloc; ".names s{i} {letter}{i}\n1 1\n")?;
        text.extend_from_slice(cell.as_bytes())?;
    }
    Ok(())
}

// The design of so many S-boxes: its state can be loaded, and is shown.
pub(crate) fn demo(alloc: Global, n: u32) -> Result<Vec<u8>, AllocError> {
    let bits = n.wrapping_mul(4);
    let mut text = b".model demo\n.inputs load\n".to_vec(alloc)?;
    add_numbered(alloc, &mut text, bits, ".inputs p")?;
    add_numbered(alloc, &mut text, bits, ".outputs c")?;
    add_latches(alloc, &mut text, bits, "n", "s")?;
    add_boxes(alloc, &mut text, n, "s")?;
    add_permutation(alloc, &mut text, n, "n")?;
    add_copies(alloc, &mut text, bits, "c")?;
    text.extend_from_slice(b".end\n")?;
    Ok(text)
}

// Nets of a letter, each the sum of a bit and of one so many places further on in the key register.
fn add_sums(
    alloc: Global,
    text: &mut Vec<u8>,
    count: u32,
    bit: &str,
    first: u32,
    letter: &str,
) -> Result<(), AllocError> {
    for i in 0..count {
        let key = i.wrapping_add(first);
        let cell = format!(in alloc; ".names {bit}{i} x{key} {letter}{i}\n10 1\n01 1\n")?;
        text.extend_from_slice(cell.as_bytes())?;
    }
    Ok(())
}

// The letter and the number of the net that a bit of the key register takes over in a round.
fn scheduled(j: u32) -> (&'static str, u32) {
    match j {
        15..=19 => ("z", j.wrapping_sub(15)),
        76..=79 => ("y", j.wrapping_sub(76)),
        _ => ("x", j.wrapping_add(19) % 80),
    }
}

// What each bit of the key register stores.
fn add_key(alloc: Global, text: &mut Vec<u8>) -> Result<(), AllocError> {
    for j in 0..80 {
        let (letter, k) = scheduled(j);
        let cell = format!(in alloc; ".names load k{j} {letter}{k} nx{j}\n11- 1\n0-1 1\n")?;
        text.extend_from_slice(cell.as_bytes())?;
    }
    Ok(())
}

// The S-box of the key register, and the next value of the round counter.
const KEY_BOX: &[u8] = b".subckt present i0=x15 i1=x16 i2=x17 i3=x18 o0=y0 o1=y1 o2=y2 o3=y3\n";

const COUNTER: &[u8] =
    b".names load r0 nr0\n1- 1\n-0 1\n.names r0 r1 h2\n11 1\n.names h2 r2 h3\n11 1\n\
.names h3 r3 h4\n11 1\n.names load r1 r0 nr1\n010 1\n001 1\n.names load r2 h2 nr2\n010 1\n001 1\n\
.names load r3 h3 nr3\n010 1\n001 1\n.names load r4 h4 nr4\n010 1\n001 1\n.end\n";

// The cipher PRESENT-80, a round in each cycle after that which loads the plaintext and the key.
pub(crate) fn present80(alloc: Global) -> Result<Vec<u8>, AllocError> {
    let mut text = b".model present80\n.inputs load\n".to_vec(alloc)?;
    add_numbered(alloc, &mut text, 64, ".inputs p")?;
    add_numbered(alloc, &mut text, 80, ".inputs k")?;
    add_numbered(alloc, &mut text, 64, ".outputs c")?;
    add_latches(alloc, &mut text, 64, "ns", "s")?;
    add_latches(alloc, &mut text, 80, "nx", "x")?;
    add_latches(alloc, &mut text, 5, "nr", "r")?;
    add_sums(alloc, &mut text, 64, "s", 16, "c")?;
    add_boxes(alloc, &mut text, 16, "c")?;
    add_permutation(alloc, &mut text, 16, "ns")?;
    text.extend_from_slice(KEY_BOX)?;
    add_sums(alloc, &mut text, 5, "r", 34, "z")?;
    add_key(alloc, &mut text)?;
    text.extend_from_slice(COUNTER)?;
    Ok(text)
}
