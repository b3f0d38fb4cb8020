// Netlists under `flat`: their texts, and how they run.

use blif_read::{Cover, Model, NameId, Statement, read};
use memory_runs::{held, run_line};
use std::alloc::{AllocError, Global};
use std::test::Fail;

#[test]
fn files_of_ports_are_flattened(rt: HostRuntime) -> Result<(), Fail> {
    let alloc = rt.alloc();
    let cases = [
        (
            b".model e\n.end\n".as_slice(),
            b"# unknown inits 0\n.model e\n.end\n".as_slice(),
        ),
        (
            b".model wires\n.inputs a\n.outputs b\n.inputs b\n.outputs a\n.end\n".as_slice(),
            b"# unknown inits 0\n.model wires\n.inputs a\n.inputs b\n.outputs b\n.outputs a\n.end\n".as_slice(),
        ),
    ];
    for (text, flat) in cases {
        let mut files = held(alloc, "e.blif", text.to_vec(alloc)?, Vec::new(alloc))?;
        let ran = run_line(alloc, "flat e.blif", &mut files, Vec::new(alloc))?;
        assert_eq!(rt; ran.status, 0);
        assert_eq!(rt; ran.out.bytes(), flat);
        assert_eq!(rt; ran.err.bytes(), b"".as_slice());
    }
    Ok(())
}

// What `flat` tells of netlists that it refuses.
#[test]
fn netlists_are_refused(rt: HostRuntime) -> Result<(), Fail> {
    let alloc = rt.alloc();
    let cases = [
        ("", "B5 line 0 no model"),
        (".inputs a\n", "B5 line 1 no model"),
        (
            ".model m\n.gate nand2 a=x\n",
            "B1 line 2 unknown statement .gate",
        ),
        (".model m\n.names a b y\n1 1\n", "B2 line 3 bad row"),
        (".model m\n1 1\n", "B2 line 2 bad row"),
        (
            ".model c\n.inputs a b\n.outputs y\n.names a b y\n00 0\n11 1\n",
            "B3 line 6 mixed cover",
        ),
        (".model m\n.latch a b ah clk 0\n", "B4 line 2 bad latch"),
        (
            ".model m\n.names a b c d e f g h i j k l m n o p q y\n",
            "B7 line 2 too many cover",
        ),
        (".model m\n.end\n.model m\n", "B8 line 3 model twice m"),
        (".model m\n.subckt s a\n", "B9 line 2 bad subckt"),
        (".model m\n.end\n.names y\n", "B10 line 3 after end"),
        (".model\n", "B11 line 1 word count"),
    ];
    for (text, told) in cases {
        let mut files = held(
            alloc,
            "e.blif",
            text.as_bytes().to_vec(alloc)?,
            Vec::new(alloc),
        )?;
        let ran = run_line(alloc, "flat e.blif", &mut files, Vec::new(alloc))?;
        assert_eq!(rt; ran.status, 1);
        assert_eq!(rt; ran.out.bytes(), b"".as_slice());
        let line = format!(in alloc; "impeccable: {told}\n")?;
        assert_eq!(rt; ran.err.bytes(), line.as_bytes());
    }
    Ok(())
}

// A word that isn't text, and a name of 256 bytes.
#[test]
fn words_of_any_bytes(rt: HostRuntime) -> Result<(), Fail> {
    let alloc = rt.alloc();
    let mut text = b".model m\n.inputs ".to_vec(alloc)?;
    text.resize(text.len() + 256, b'a')?;
    let cases = [
        (
            b".model m\n.\xff\n".to_vec(alloc)?,
            "impeccable: B1 line 2 unknown statement .\\xff\n",
        ),
        (text, "impeccable: B6 line 2 long name\n"),
    ];
    for (text, told) in cases {
        let mut files = held(alloc, "e.blif", text, Vec::new(alloc))?;
        let ran = run_line(alloc, "flat e.blif", &mut files, Vec::new(alloc))?;
        assert_eq!(rt; ran.status, 1);
        assert_eq!(rt; ran.out.bytes(), b"".as_slice());
        assert_eq!(rt; ran.err.bytes(), told.as_bytes());
    }
    Ok(())
}

// A word of 600 bytes, of which bytes 255, 256, 511 and 512 aren't printable.
#[test]
fn a_long_word_is_told_whole(rt: HostRuntime) -> Result<(), Fail> {
    let alloc = rt.alloc();
    let letters = [b'a'; 254];
    let mut text = b".model m\n.".to_vec(alloc)?;
    let mut told = b"impeccable: B1 line 2 unknown statement .".to_vec(alloc)?;
    text.extend_from_slice(&letters)?;
    told.extend_from_slice(&letters)?;
    text.extend_from_slice(b"\xff\xff")?;
    told.extend_from_slice(b"\\xff\\xff")?;
    text.extend_from_slice(&letters)?;
    told.extend_from_slice(&letters)?;
    text.extend_from_slice(b"\x80\x7f")?;
    told.extend_from_slice(b"\\x80\\x7f")?;
    text.extend_from_slice(&letters[..87])?;
    told.extend_from_slice(&letters[..87])?;
    text.push(b'\n')?;
    told.push(b'\n')?;
    let mut files = held(alloc, "e.blif", text, Vec::new(alloc))?;
    let ran = run_line(alloc, "flat e.blif", &mut files, Vec::new(alloc))?;
    assert_eq!(rt; ran.status, 1);
    assert_eq!(rt; ran.out.bytes(), b"".as_slice());
    assert_eq!(rt; ran.err.bytes(), told.as_slice());
    Ok(())
}

// The bit of a net, and 0 where there is none.
fn bit_of(values: &[bool], net: NameId) -> bool {
    values.get(net.0 as usize).copied().unwrap_or(false)
}

// The value of a cover, by its rows.
fn cover_value(cover: &Cover, ins: &[NameId], values: &[bool]) -> bool {
    let mut bits = 0u16;
    for net in ins.iter().rev() {
        bits = (bits & 0x7fff) << 1 | u16::from(bit_of(values, *net));
    }
    let mut fits = false;
    for row in cover.rows.iter() {
        fits = fits || bits & row.care == row.value;
    }
    !cover.rows.is_empty() && fits == cover.on
}

// Puts a net's bit.
fn put_bit(values: &mut [bool], net: NameId, bit: bool) {
    if let Some(place) = values.get_mut(net.0 as usize) {
        *place = bit;
    }
}

// One cycle of a netlist that is computed line by line, from the bits of its latches, which are among the values: the
// outputs as text, and the bits that the latches store next.
fn slow_cycle(
    alloc: Global,
    model: &Model,
    x: &[bool],
    values: &mut [bool],
) -> Result<Vec<u8>, AllocError> {
    for (port, bit) in model.inputs.iter().zip(x.iter()) {
        put_bit(values, port.name, *bit);
    }
    for located in model.statements.iter() {
        if let Statement::Names { ins, out, cover } = &located.what {
            let bit = cover_value(cover, ins, values);
            put_bit(values, *out, bit);
        }
    }
    let mut shown = Vec::new(alloc);
    for port in model.outputs.iter() {
        shown.push(if bit_of(values, port.name) {
            b'1'
        } else {
            b'0'
        })?;
    }
    let mut stored = Vec::new(alloc);
    for located in model.statements.iter() {
        if let Statement::Latch { d, q, .. } = &located.what {
            stored.push((*q, bit_of(values, *d)))?;
        }
    }
    for (q, bit) in stored.iter() {
        put_bit(values, *q, *bit);
    }
    Ok(shown)
}

// The outputs of a written netlist in each cycle, one line each.
pub(crate) fn slow_run(
    alloc: Global,
    text: &[u8],
    stream: &[&[bool]],
) -> Result<Vec<u8>, AllocError> {
    let mut lines = Vec::new(alloc);
    if text.len() >= 1000 {
        return Ok(lines);
    }
    let Ok(file) = read(alloc, text) else {
        return Ok(lines);
    };
    if let Some(model) = file.models.first() {
        let mut values = vec![in alloc; false; model.names.len() as usize]?;
        for located in model.statements.iter() {
            if let Statement::Latch { q, init, .. } = &located.what {
                put_bit(&mut values, *q, *init == Some(1));
            }
        }
        for x in stream {
            let shown = slow_cycle(alloc, model, x, &mut values)?;
            lines.extend_from_slice(&shown)?;
            lines.push(b' ')?;
        }
    }
    Ok(lines)
}

const COUNTER: &str =
    ".model counter\n.outputs a0 a1 a2 a3\n.latch n0 a0 0\n.latch n1 a1 0\n.latch n2 a2 0\n.latch n3 a3 0\n\
    .names a0 n0\n0 1\n.names a0 a1 n1\n10 1\n01 1\n.names a0 a1 c1\n11 1\n.names c1 a2 n2\n10 1\n01 1\n.names c1 a2 c2\n11 1\n\
    .names c2 a3 n3\n10 1\n01 1\n.end\n";

// Flat netlists begin so, and run so.
#[test]
fn netlists_of_cells_are_flattened(rt: HostRuntime) -> Result<(), Fail> {
    let alloc = rt.alloc();
    let none: &[bool] = &[];
    let cases: [(&str, &str, [&[bool]; 6], &str); 4] = [
        (
            ".model inv\n.outputs q\n.latch n q 0\n.names q n\n0 1\n.end\n",
            "# unknown inits 0\n.model inv\n.outputs q\n.latch guard:n0 q 0\n.names q guard:n0\n0 1\n.end\n",
            [none, none, none, none, none, none],
            "0 1 0 1 0 1 ",
        ),
        (
            COUNTER,
            "# unknown inits 0\n.model counter\n.outputs a0\n",
            [none, none, none, none, none, none],
            "0000 1000 0100 1100 0010 1010 ",
        ),
        (
            ".model i\n.inputs x\n.outputs a b c d\n.latch x a 2\n.latch x b 3\n.latch x c\n.latch x d 1\n.end\n",
            "# unknown inits 3\n.model i\n.inputs x\n",
            [&[false], &[true], &[false], &[true], &[true], &[false]],
            "0001 0000 1111 0000 1111 1111 ",
        ),
        (
            ".model m\r\n.inputs a \\\n b\n.outputs y\n.names a b y # and\n11 1 # row",
            "# unknown inits 0\n.model m\n.inputs a\n.inputs b\n.outputs y\n",
            [
                &[true, false],
                &[true, true],
                &[false, false],
                &[false, true],
                &[true, true],
                &[true, false],
            ],
            "0 1 0 0 1 0 ",
        ),
    ];
    for (text, front, stream, shown) in cases {
        let mut files = held(
            alloc,
            "e.blif",
            text.as_bytes().to_vec(alloc)?,
            Vec::new(alloc),
        )?;
        let ran = run_line(alloc, "flat e.blif", &mut files, Vec::new(alloc))?;
        assert_eq!(rt; ran.status, 0);
        assert_eq!(rt; ran.err.bytes(), b"".as_slice());
        assert!(rt; ran.out.bytes().starts_with(front.as_bytes()));
        let ran = slow_run(alloc, ran.out.bytes(), stream.as_slice())?;
        assert_eq!(rt; ran.as_slice(), shown.as_bytes());
    }
    Ok(())
}
