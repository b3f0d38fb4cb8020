// Sources with placed models, library entries, clocks and statements in any order, and the runs of their machines.
ghost use Rattle.std.specs.Prelude.{map, IsTrue};
ghost use Rattle.netlist_spec.specs.Netlist.{are_distinct};
ghost use Rattle.sbox_table.specs.declared.table.NamedTable.{NamedTable as ReadTable};
ghost use Rattle.linear_layer.specs.declared.layer.NamedLinear.{NamedLinear as ReadLinear};

use blif_read::{Name, read};
use elaborate::{ElabFault, elaborate};
use elaborated::Elaborated;
use gate_net::Machine;
use linear_layer::{Linear, NamedLinear};
use sbox_table::{NamedTable, Table};
use std::alloc::{AllocError, Global};
use std::test::Fail;

const LONGEST_TEXT: usize = 10_000;

// The text of some lines that are written on one.
fn lines(alloc: Global, text: &[u8]) -> Result<Vec<u8>, AllocError> {
    let mut all = Vec::new(alloc);
    for byte in text {
        all.push(if *byte == b'/' { b'\n' } else { *byte })?;
    }
    Ok(all)
}

// What a text that can be read is elaborated to.
fn source(
    alloc: Global,
    text: &[u8],
    tables: &[NamedTable],
    linears: &[NamedLinear],
) -> Option<Result<Elaborated, ElabFault>>
    requires tables { IsTrue (are_distinct (map (λ (t : ReadTable). t.name) tables.now)) }
    requires linears { IsTrue (are_distinct (map (λ (l : ReadLinear). l.name) linears.now)) }
{
    if text.len() > LONGEST_TEXT {
        return None;
    }
    let Ok(file) = read(alloc, text) else {
        return None;
    };
    Some(elaborate(alloc, file, tables, linears))
}

// One cycle of a machine whose buffers have their lengths.
fn step(machine: &Machine, x: &[bool], state: &mut [bool], row: &mut [bool], out: &mut [bool]) {
    if x.len() == machine.inputs as usize
        && state.len() == machine.latches.len()
        && row.len() == machine.net.len() as usize
        && out.len() == machine.outputs.len()
    {
        machine.step_into(x, state, row, out);
    }
}

fn bits(alloc: Global, digits: &[u8]) -> Result<Vec<bool>, AllocError> {
    digits.iter().map(|digit| *digit == b'1').collect(alloc)
}

// The outputs of a machine, cycle by cycle, on these inputs.
fn run(alloc: Global, machine: &Machine, stream: &[&[u8]]) -> Result<Vec<u8>, AllocError> {
    let mut shown = Vec::new(alloc);
    let mut state = Vec::new(alloc);
    for latch in machine.latches.iter() {
        state.push(latch.init)?;
    }
    let mut row = vec![in alloc; false; machine.net.len() as usize]?;
    let mut out = vec![in alloc; false; machine.outputs.len()]?;
    for x in stream {
        let x = bits(alloc, x)?;
        step(machine, &x, &mut state, &mut row, &mut out);
        for bit in out.iter() {
            shown.push(if *bit { b'1' } else { b'0' })?;
        }
        shown.push(b' ')?;
    }
    Ok(shown)
}

// The outputs of a text's machine on these inputs, and nothing where the text has no meaning.
fn outputs(
    alloc: Global,
    text: &[u8],
    tables: &[NamedTable],
    linears: &[NamedLinear],
    stream: &[&[u8]],
) -> Result<Vec<u8>, AllocError>
    requires tables { IsTrue (are_distinct (map (λ (t : ReadTable). t.name) tables.now)) }
    requires linears { IsTrue (are_distinct (map (λ (l : ReadLinear). l.name) linears.now)) }
{
    let text = lines(alloc, text)?;
    match source(alloc, &text, tables, linears) {
        Some(Ok(e)) => run(alloc, &e.machine, stream),
        _ => Ok(Vec::new(alloc)),
    }
}

#[test]
fn machines_run_as_placed_models(rt: HostRuntime) -> Result<(), Fail> {
    let cases: [(&[u8], &[&[u8]], &[u8]); 5] = [
        // two placements of one model
        (
            b".model m / .inputs a b / .outputs y z / .subckt s i=a o=y / .subckt s i=b o=z / .end / .model s / .inputs i / .outputs o / .names i o / 0 1",
            &[b"10", b"00"],
            b"01 11 ",
        ),
        // statements behind those that read them
        (
            b".model m / .inputs a b / .outputs y / .names w y / 0 1 / .names a b w / 11 1",
            &[b"11", b"10"],
            b"0 1 ",
        ),
        // a clock that is an input port too: the one data input is d
        (
            b".model m / .inputs c d / .outputs q / .clock c / .latch d q re c 1",
            &[b"0", b"1", b"0"],
            b"1 0 1 ",
        ),
        // outputs that are an input and a latch
        (
            b".model m / .inputs a / .outputs a q / .latch a q 1",
            &[b"0", b"1", b"0"],
            b"01 10 01 ",
        ),
        // an output port that stands for nothing
        (
            b".model m / .inputs a / .outputs y / .subckt s i=a p=y / .end / .model s / .inputs i / .outputs o p / .names i o / 0 1 / .names i p / 1 1",
            &[b"1", b"0"],
            b"1 0 ",
        ),
    ];
    for (text, stream, shown) in cases {
        let ran = outputs(rt.alloc(), text, &[], &[], stream)?;
        assert_eq!(rt; ran.as_slice(), shown);
    }
    Ok(())
}

// The table of the S-box of the cipher PRESENT.
const PRESENT: [u16; 16] = [12, 5, 6, 11, 9, 0, 10, 13, 3, 14, 15, 8, 4, 7, 1, 2];

fn present(alloc: Global) -> Result<NamedTable, Fail> {
    Ok(NamedTable {
        name: Name::new(alloc, b"present")?,
        table: Table::new(4, 4, Vec::from_slice(alloc, &PRESENT)?).ok_or("a table")?,
    })
}

#[test]
fn a_table_answers_at_its_ports(rt: HostRuntime) -> Result<(), Fail> {
    let alloc = rt.alloc();
    let tables = [present(alloc)?];
    let text =
        b".model b / .inputs a b c d / .outputs y0 y1 y2 y3 / .subckt present o3=y3 i2=c i0=a o0=y0 i1=b i3=d o1=y1 o2=y2 / .end";
    let ran = outputs(alloc, text, &tables, &[], &[b"0000", b"1000"])?;
    assert_eq!(rt; ran.as_slice(), b"0011 1010 ".as_slice());
    Ok(())
}

#[test]
fn a_table_wants_each_input(rt: HostRuntime) -> Result<(), Fail> {
    let alloc = rt.alloc();
    let tables = [present(alloc)?];
    let text = lines(
        alloc,
        b".model b / .inputs a b c d / .outputs y0 y1 y2 y3 / .subckt present o3=y3 i2=c i0=a o0=y0 i1=b o1=y1 o2=y2 / .end",
    )?;
    let Some(Err(ElabFault::BadPort(entry, port))) = source(alloc, &text, &tables, &[]) else {
        panic!(rt; "an input isn't given");
    };
    assert_eq!(rt; entry.bytes(), b"present".as_slice());
    assert_eq!(rt; port.bytes(), b"i3".as_slice());
    Ok(())
}

#[test]
fn a_layer_answers_at_its_ports(rt: HostRuntime) -> Result<(), Fail> {
    let alloc = rt.alloc();
    let linears = [NamedLinear {
        name: Name::new(alloc, b"mix")?,
        layer: Linear::new(vec![in alloc; 0b011, 0b110]?, 3).ok_or("a layer")?,
    }];
    let text = b".model m / .inputs a b c / .outputs y z / .subckt mix i0=a i1=b i2=c o0=y o1=z";
    let ran = outputs(alloc, text, &[], &linears, &[b"110"])?;
    assert_eq!(rt; ran.as_slice(), b"01 ".as_slice());
    Ok(())
}

// Models `m0`, `m1`, .., each but the last with a `.subckt` of the next one.
fn nested(alloc: Global, last: u32) -> Result<Vec<u8>, AllocError> {
    let mut text = Vec::new(alloc);
    for n in 0..last {
        let next = n.saturating_add(1);
        let model = format!(in alloc; ".model m{n}\n.subckt m{next}\n.end\n")?;
        text.extend_from_slice(model.as_bytes())?;
    }
    let model = format!(in alloc; ".model m{last}\n")?;
    text.extend_from_slice(model.as_bytes())?;
    Ok(text)
}

#[test]
fn sixteen_steps_are_not_too_deep(rt: HostRuntime) -> Result<(), Fail> {
    let alloc = rt.alloc();
    let text = nested(alloc, 16)?;
    assert!(rt; matches!(source(alloc, &text, &[], &[]), Some(Ok(_))));
    let text = nested(alloc, 17)?;
    let Some(Err(ElabFault::Depth(model))) = source(alloc, &text, &[], &[]) else {
        panic!(rt; "it is too deep");
    };
    assert_eq!(rt; model.bytes(), b"m17".as_slice());
    Ok(())
}
