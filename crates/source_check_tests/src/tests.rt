// Which sources have a meaning, and what the others are refused with.
ghost use Rattle.std.specs.Prelude.{map, IsTrue};
ghost use Rattle.netlist_spec.specs.Netlist.{are_distinct};
ghost use Rattle.sbox_table.specs.declared.table.NamedTable.{NamedTable as ReadTable};
ghost use Rattle.linear_layer.specs.declared.layer.NamedLinear.{NamedLinear as ReadLinear};

use blif_read::{Name, NameId, Names, read};
use linear_layer::{Linear, NamedLinear};
use sbox_table::{NamedTable, Table};
use source_check::{Checked, ElabFault, check};
use source_cost::total_cost;
use std::alloc::{AllocError, Global};
use std::test::Fail;

const LONGEST_TEXT: usize = 100_000_000;

// Loops of more nets are told by their number.
const LONGEST_LOOP: u32 = 10;

// What is told of a text: a refusal with its names, or that it has a meaning, with its whole cost.
fn told(
    alloc: Global,
    text: &[u8],
    tables: &[NamedTable],
    linears: &[NamedLinear],
) -> Result<Vec<u8>, AllocError>
    requires tables { IsTrue (are_distinct (map (λ (t : ReadTable). t.name) tables.now)) }
    requires linears { IsTrue (are_distinct (map (λ (l : ReadLinear). l.name) linears.now)) }
{
    if text.len() > LONGEST_TEXT {
        return b"unread".to_vec(alloc);
    }
    let Ok(file) = read(alloc, text) else {
        return b"unread".to_vec(alloc);
    };
    match check(alloc, &file, tables, linears) {
        Ok(checked) => meaning(alloc, &checked),
        Err(fault) => refusal(alloc, &fault),
    }
}

fn meaning(alloc: Global, checked: &Checked) -> Result<Vec<u8>, AllocError> {
    let cost = total_cost(&checked.costs);
    Ok(format!(in alloc; "sound {cost}")?.into_bytes())
}

fn refusal(alloc: Global, fault: &ElabFault) -> Result<Vec<u8>, AllocError> {
    match fault {
        ElabFault::Twice(net) => with_name(alloc, b"E1", net),
        ElabFault::NoSuchModel(name) => with_name(alloc, b"E2", name),
        ElabFault::BadPort(model, formal) => {
            let mut line = with_name(alloc, b"E3", model)?;
            line.push(b' ')?;
            line.extend_from_slice(formal.bytes())?;
            Ok(line)
        }
        ElabFault::Recursion(model) => with_name(alloc, b"E4", model),
        ElabFault::LatchInside(model) => with_name(alloc, b"E5", model),
        ElabFault::Depth(model) => with_name(alloc, b"E6", model),
        ElabFault::Undriven(net) => with_name(alloc, b"E7", net),
        ElabFault::Clocking(net) => with_name(alloc, b"E8", net),
        ElabFault::Loop(nets) => with_names(alloc, nets),
        ElabFault::Reserved(name) => with_name(alloc, b"E10", name),
        ElabFault::TooLarge(what) => with_word(alloc, b"E11", what.word().as_bytes()),
        ElabFault::NoMemory => b"no memory".to_vec(alloc),
    }
}

fn with_word(alloc: Global, code: &[u8], word: &[u8]) -> Result<Vec<u8>, AllocError> {
    let mut line = code.to_vec(alloc)?;
    line.push(b' ')?;
    line.extend_from_slice(word)?;
    Ok(line)
}

fn with_name(alloc: Global, code: &[u8], name: &Name) -> Result<Vec<u8>, AllocError> {
    with_word(alloc, code, name.bytes())
}

fn with_names(alloc: Global, nets: &Names) -> Result<Vec<u8>, AllocError> {
    let count = nets.len();
    if count > LONGEST_LOOP {
        return Ok(format!(in alloc; "E9 with {count} nets")?.into_bytes());
    }
    let mut line = b"E9".to_vec(alloc)?;
    for i in 0..count {
        line.push(b' ')?;
        line.extend_from_slice(nets.get(NameId(i)))?;
    }
    Ok(line)
}

// The text of some lines that are written on one.
fn lines(alloc: Global, text: &[u8]) -> Result<Vec<u8>, AllocError> {
    let mut all = Vec::new(alloc);
    for byte in text {
        all.push(if *byte == b'/' { b'\n' } else { *byte })?;
    }
    Ok(all)
}

// A text, and behind it so many numbered words or lines.
fn numbered(
    alloc: Global,
    start: &[u8],
    count: u32,
    before: &str,
    behind: &str,
) -> Result<Vec<u8>, AllocError> {
    let mut text = start.to_vec(alloc)?;
    for n in 0..count {
        let part = format!(in alloc; "{before}{n}{behind}")?;
        text.extend_from_slice(part.as_bytes())?;
    }
    Ok(text)
}

// Models `m0`, `m1`, .., each with so many `.subckt` of the next one, and the last with the given lines.
fn nested(alloc: Global, last: u32, placements: u32, inside: &[u8]) -> Result<Vec<u8>, AllocError> {
    let mut text = Vec::new(alloc);
    for n in 0..last {
        let head = format!(in alloc; ".model m{n}\n")?;
        let next = n.saturating_add(1);
        let line = format!(in alloc; ".subckt m{next}\n")?;
        text.extend_from_slice(head.as_bytes())?;
        for _ in 0..placements {
            text.extend_from_slice(line.as_bytes())?;
        }
        text.extend_from_slice(b".end\n")?;
    }
    let head = format!(in alloc; ".model m{last}\n")?;
    text.extend_from_slice(head.as_bytes())?;
    text.extend_from_slice(inside)?;
    Ok(text)
}

// Cells of which each reads the next one, and the last a given net.
fn row(alloc: Global, start: &[u8], count: u32, last: &str) -> Result<Vec<u8>, AllocError> {
    let mut text = start.to_vec(alloc)?;
    let end = count.saturating_sub(1);
    for n in 0..end {
        let next = n.saturating_add(1);
        let cell = format!(in alloc; ".names n{next} n{n}\n0 1\n")?;
        text.extend_from_slice(cell.as_bytes())?;
    }
    let cell = format!(in alloc; ".names {last} n{end}\n0 1\n")?;
    text.extend_from_slice(cell.as_bytes())?;
    Ok(text)
}

#[test]
fn sources_have_a_meaning_or_a_refusal(rt: HostRuntime) -> Result<(), Fail> {
    let cases: [(&[u8], &[u8]); 52] = [
        // nets that are driven twice
        (b".model m / .names y / .names y", b"E1 y"),
        (b".model\x00m / .inputs a / .names a \\", b"E1 a"),
        (b".model m / .names a / .inputs a", b"E1 a"),
        (b".model m / .inputs a b a", b"E1 a"),
        (b".model m / .clock c c", b"E1 c"),
        (b".model m / .inputs a / .outputs a / .outputs a", b"E1 a"),
        (
            b".model m / .names z / .names y / .names y / .names z",
            b"E1 y",
        ),
        (b".model m / .inputs d / .latch d q 0 / .names q", b"E1 q"),
        // a port that is bound twice with one net, and a name that is input and clock
        (
            b".model m / .inputs a / .subckt s i=a o=y o=y / .end / .model s / .inputs i / .outputs o / .names i o / 0 1",
            b"E1 y",
        ),
        (
            b".model m / .inputs c d / .clock c / .latch d q re c 0",
            b"sound 0",
        ),
        // names that nothing has
        (b".model m / .subckt dffe d=a", b"E2 dffe"),
        (
            b".model m / .subckt s / .end / .model s / .subckt t",
            b"E2 t",
        ),
        (b".model m / .end / .model s / .subckt t", b"sound 0"),
        // ports
        (
            b".model m / .subckt s q=a / .end / .model s / .inputs d",
            b"E3 s q",
        ),
        (
            b".model m / .inputs a / .subckt s i=a o=y o=z / .end / .model s / .inputs i / .outputs o / .names i o / 0 1",
            b"E3 s o",
        ),
        (
            b".model m / .inputs a b / .subckt s i=a i=b o=y / .end / .model s / .inputs i / .outputs o / .names i o / 0 1",
            b"E3 s i",
        ),
        (
            b".model m / .subckt s o=y / .end / .model s / .inputs i / .outputs o / .names i o / 0 1",
            b"E3 s i",
        ),
        (
            b".model m / .subckt s o=y x=y / .end / .model s / .inputs i / .outputs o / .names i o / 0 1",
            b"E3 s x",
        ),
        (
            b".model m / .inputs a / .subckt s i=a / .end / .model s / .inputs i / .outputs o / .names i o / 0 1",
            b"sound 8",
        ),
        (
            b".model m / .subckt s / .end / .model s / .clock c / .inputs a b",
            b"E3 s a",
        ),
        (
            b".model m / .inputs a / .subckt s c=a / .end / .model s / .inputs c / .clock c",
            b"sound 2",
        ),
        // models that contain themselves
        (b".model m / .subckt m", b"E4 m"),
        (
            b".model m / .subckt b / .end / .model a / .subckt b / .end / .model b / .subckt a",
            b"E4 a",
        ),
        (
            b".model m / .subckt a / .end / .model a / .subckt b / .end / .model b / .subckt b",
            b"E4 b",
        ),
        // latches inside, and in a model that isn't used
        (
            b".model m / .subckt s / .end / .model s / .latch a a 0",
            b"E5 s",
        ),
        (b".model m / .end / .model s / .latch a a 0", b"sound 0"),
        // nets without a driver
        (b".model m / .outputs y", b"E7 y"),
        (b".model m / .latch d q 0", b"E7 d"),
        (b".model m / .inputs b / .names b a y / .outputs z", b"E7 a"),
        (
            b".model m / .subckt s / .end / .model s / .outputs y",
            b"E7 y",
        ),
        (
            b".model m / .subckt b / .subckt a / .end / .model a / .outputs x / .end / .model b / .outputs y",
            b"E7 x",
        ),
        // latches that are clocked apart, by a cell, or by none that is named
        (
            b".model m / .inputs c d / .latch d a re c 0 / .latch d b fe c 0",
            b"E8 b",
        ),
        (
            b".model m / .inputs d / .latch d a 0 / .latch d b re NIL 0",
            b"E8 b",
        ),
        (
            b".model m / .inputs d / .names k / .latch d q re k 0",
            b"E8 q",
        ),
        (
            b".model m / .inputs NIL d / .outputs NIL / .latch d q re NIL 0",
            b"sound 0",
        ),
        // clocks that are read
        (
            b".model m / .inputs c / .outputs c / .latch c a re c 0",
            b"E8 c",
        ),
        (
            b".model m / .clock c / .subckt s k=c / .end / .model s / .clock k",
            b"E8 c",
        ),
        (
            b".model m / .clock k / .inputs c d / .outputs k c / .latch d q re c 0",
            b"E8 c",
        ),
        // loops, and one that a latch ends
        (b".model m / .names y y", b"E9 y"),
        (
            b".model m / .outputs y / .names b y / .names c b / .names b c",
            b"E9 b c",
        ),
        (
            b".model m / .names c b a / .names a b / .names a c",
            b"E9 c a",
        ),
        (
            b".model l / .outputs p / .names q p / 1 1 / .names p q / 1 1",
            b"E9 p q",
        ),
        (
            b".model m / .subckt s / .end / .model s / .names y y",
            b"E9 y",
        ),
        (b".model m / .latch d q 0 / .names q d / 0 1", b"sound 6"),
        // a port of both kinds, and a path that the inside doesn't take
        (
            b".model m / .subckt s p=y / .end / .model s / .inputs p / .outputs p",
            b"E9 y",
        ),
        (
            b".model m / .inputs x / .subckt s i=x j=a o=a / .end / .model s / .inputs i j / .outputs o / .names i o / 1 1",
            b"E9 a",
        ),
        // names that can't be written
        (b".model m / .inputs guard:x", b"E10 guard:x"),
        (b".model m / .inputs a\\ b", b"E10 a\\"),
        (b".model m\\ \\ / / .inputs guard:x", b"E10 m\\"),
        (
            b".model m / .names guard:y / .outputs guard:y / .clock guard:k",
            b"E10 guard:k",
        ),
        (b".model m / .names guard:n", b"sound 2"),
        // statements in another order than their nets settle
        (
            b".model m / .inputs a b / .outputs y / .subckt s i=w o=y / .names a b w / 11 1 / .end / .model s / .inputs i / .outputs o / .names i o / 0 1",
            b"sound 17",
        ),
    ];
    for (text, expected) in cases {
        let text = lines(rt.alloc(), text)?;
        assert_eq!(rt; told(rt.alloc(), &text, &[], &[])?.as_slice(), expected);
    }
    Ok(())
}

#[test]
fn the_first_of_two_findings_is_told(rt: HostRuntime) -> Result<(), Fail> {
    let cases: [(&[u8], &[u8]); 10] = [
        // of two tests
        (b".model m / .subckt t / .names y / .names y", b"E1 y"),
        (
            b".model m / .outputs y / .subckt s / .end / .model s / .names z / .names z",
            b"E1 z",
        ),
        (
            b".model m / .subckt s q=a / .subckt t / .end / .model s",
            b"E2 t",
        ),
        (b".model m / .subckt m q=a", b"E3 m q"),
        (
            b".model m / .subckt s / .end / .model s / .latch a a 0 / .subckt s",
            b"E4 s",
        ),
        (
            b".model m / .inputs c / .outputs y c / .latch c q re c 0",
            b"E7 y",
        ),
        (b".model m / .clock k / .outputs k / .names y y", b"E8 k"),
        (b".model m / .inputs guard:x / .names y y", b"E9 y"),
        // of one test: latches before clocks, and models in file order
        (
            b".model m / .inputs c k d / .outputs c / .latch d a re c 0 / .latch d b re k 0",
            b"E8 b",
        ),
        (
            b".model m / .subckt t / .subckt s / .end / .model s / .latch a a 0 / .end / .model t / .latch b b 0",
            b"E5 s",
        ),
    ];
    for (text, expected) in cases {
        let text = lines(rt.alloc(), text)?;
        assert_eq!(rt; told(rt.alloc(), &text, &[], &[])?.as_slice(), expected);
    }
    Ok(())
}

#[test]
fn large_sources_have_a_meaning_or_a_refusal(rt: HostRuntime) -> Result<(), Fail> {
    let alloc = rt.alloc();
    let outputs = numbered(alloc, b".model m\n", 4097, ".names y", "\n")?;
    let cases: [(Vec<u8>, &[u8]); 13] = [
        (nested(alloc, 17, 1, b"")?, b"E6 m17"),
        (nested(alloc, 16, 1, b"")?, b"sound 16"),
        (nested(alloc, 17, 1, b".latch a a 0\n")?, b"E5 m17"),
        (nested(alloc, 17, 1, b".outputs y\n")?, b"E6 m17"),
        (nested(alloc, 16, 3, b".names y\n")?, b"E11 source"),
        (
            numbered(alloc, b".model m\n.inputs", 4097, " i", "")?,
            b"E11 inputs",
        ),
        (
            numbered(alloc, b".model m\n.clock i0\n.inputs", 4097, " i", "")?,
            b"sound 0",
        ),
        (
            numbered(alloc, b".model m\n.inputs guard:x", 4097, " i", "")?,
            b"E10 guard:x",
        ),
        (
            numbered(alloc, &outputs, 4097, ".outputs y", "\n")?,
            b"E11 outputs",
        ),
        (
            numbered(alloc, &outputs, 4096, ".outputs y", "\n")?,
            b"sound 8194",
        ),
        (
            numbered(alloc, b".model m\n.inputs d\n", 4097, ".latch d q", "\n")?,
            b"E11 latches",
        ),
        // a ring, and a chain of inverters whose first net stands last
        (
            row(alloc, b".model m\n", 100_000, "n0")?,
            b"E9 with 100000 nets",
        ),
        (
            row(alloc, b".model m\n.inputs a\n.outputs n0\n", 100_000, "a")?,
            b"sound 600000",
        ),
    ];
    for (text, expected) in &cases {
        assert_eq!(rt; told(alloc, text, &[], &[])?.as_slice(), *expected);
    }
    Ok(())
}

#[test]
fn the_first_of_two_findings_in_large_sources_is_told(rt: HostRuntime) -> Result<(), Fail> {
    let alloc = rt.alloc();
    // two models that stand too deep, the deeper one first
    let mut deep = b".model top\n.subckt m0\n.end\n.model s\n.end\n".to_vec(alloc)?;
    deep.extend_from_slice(&nested(alloc, 16, 1, b".subckt s\n")?)?;
    let mut ports = numbered(alloc, b".model m\n.outputs", 4097, " p", "")?;
    ports.extend_from_slice(b"\n.inputs")?;
    let cases: [(Vec<u8>, &[u8]); 2] = [
        (deep, b"E6 s"),
        (numbered(alloc, &ports, 4097, " p", "")?, b"E11 inputs"),
    ];
    for (text, expected) in &cases {
        assert_eq!(rt; told(alloc, text, &[], &[])?.as_slice(), *expected);
    }
    Ok(())
}

#[test]
fn library_entries_are_placed(rt: HostRuntime) -> Result<(), Fail> {
    let alloc = rt.alloc();
    let tables = [NamedTable {
        name: Name::new(alloc, b"s")?,
        table: Table::new(2, 1, vec![in alloc; 0, 1, 1, 0]?).ok_or("a table")?,
    }];
    let linears = [NamedLinear {
        name: Name::new(alloc, b"l")?,
        layer: Linear::new(vec![in alloc; 0b11, 0b01]?, 2).ok_or("a layer")?,
    }];
    let cases: [(&[u8], &[u8]); 10] = [
        (
            b".model m / .inputs a b / .subckt s i0=a i1=b o0=y",
            b"sound 16",
        ),
        (
            b".model m / .inputs a b / .subckt l i0=a i1=b o1=y",
            b"sound 5",
        ),
        // a model of the name stands before the table
        (
            b".model m / .inputs a / .subckt s i=a / .end / .model s / .inputs i / .outputs o / .names i o / 0 1",
            b"sound 8",
        ),
        (
            b".model m / .inputs a b / .names y / .subckt s i0=a i1=b o0=y",
            b"E1 y",
        ),
        (b".model m / .subckt t", b"E2 t"),
        (b".model m / .inputs a / .subckt s i0=a o0=y", b"E3 s i1"),
        (b".model m / .inputs a / .subckt s i00=a", b"E3 s i00"),
        (
            b".model m / .inputs a b / .subckt s i0=a i1=b i0=b",
            b"E3 s i0",
        ),
        (
            b".model m / .inputs a b / .subckt l i0=a i1=b o2=y",
            b"E3 l o2",
        ),
        (b".model m / .inputs a / .subckt s i0=a i1=y o0=y", b"E9 y"),
    ];
    for (text, expected) in cases {
        let text = lines(alloc, text)?;
        assert_eq!(rt; told(alloc, &text, &tables, &linears)?.as_slice(), expected);
    }
    Ok(())
}
