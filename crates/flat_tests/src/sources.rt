// Sources under `flat`: what has no meaning is refused, and all else is flattened.

use crate::netlists::slow_run;
use memory_runs::{held, run_line};
use std::alloc::{AllocError, Global};
use std::test::Fail;

// What `flat` tells of sources that have no meaning.
#[test]
fn sources_without_a_meaning_are_refused(rt: HostRuntime) -> Result<(), Fail> {
    let alloc = rt.alloc();
    let cases = [
        (".model m\n.names y\n.names y\n", "E1 twice y"),
        (".model m\n.subckt dffe d=a\n", "E2 no such model dffe"),
        (
            ".model m\n.subckt s q=a\n.end\n.model s\n.inputs d\n",
            "E3 bad port s q",
        ),
        (
            ".model m\n.subckt s q\\=a\n.end\n.model s\n.inputs d\n",
            "E3 bad port s q\\x5c",
        ),
        (".model m\n.subckt m\n", "E4 recursion m"),
        (
            ".model m\n.subckt s\n.end\n.model s\n.latch a a 0\n",
            "E5 latch inside s",
        ),
        (".model m\n.outputs y\n", "E7 undriven y"),
        (
            ".model m\n.inputs c d\n.latch d a re c 0\n.latch d b fe c 0\n",
            "E8 clocking b",
        ),
        (
            ".model m\n.inputs c\n.outputs c\n.latch c a re c 0\n",
            "E8 clocking c",
        ),
        (
            ".model l\n.outputs p\n.names q p\n1 1\n.names p q\n1 1\n",
            "E9 loop p q",
        ),
        (".model m\n.inputs guard:x\n", "E10 reserved guard:x"),
        (".model m\n.inputs a\\ b\n", "E10 reserved a\\x5c"),
        // No library entry stands behind a name.
        (
            ".model b\n.inputs a b c d\n.outputs y\n.subckt present i0=a i1=b i2=c i3=d o0=y\n.end\n",
            "E2 no such model present",
        ),
        // The earlier test is told.
        (".model m\n.inputs guard:x\n.outputs y\n", "E7 undriven y"),
    ];
    for (text, told) in cases {
        let text = text.as_bytes().to_vec(alloc)?;
        let mut files = held(alloc, "e.blif", text, Vec::new(alloc))?;
        let ran = run_line(alloc, "flat e.blif", &mut files, Vec::new(alloc))?;
        assert_eq!(rt; ran.status, 1);
        assert_eq!(rt; ran.out.bytes(), b"".as_slice());
        let line = format!(in alloc; "impeccable: {told}\n")?;
        assert_eq!(rt; ran.err.bytes(), line.as_bytes());
    }
    Ok(())
}

// Models m0 to the one of that number, each of which places the next.
fn chain(alloc: Global, last: u32) -> Result<Vec<u8>, AllocError> {
    let mut text = Vec::new(alloc);
    for i in 0..last {
        let next = i.saturating_add(1);
        let model = format!(in alloc; ".model m{i}\n.subckt m{next}\n.end\n")?;
        text.extend_from_slice(model.as_bytes())?;
    }
    let model = format!(in alloc; ".model m{last}\n.end\n")?;
    text.extend_from_slice(model.as_bytes())?;
    Ok(text)
}

// Sixteen steps lead to a model, and seventeen.
#[test]
fn models_stand_so_deep(rt: HostRuntime) -> Result<(), Fail> {
    let alloc = rt.alloc();
    let cases = [
        (16, 0, "# unknown inits 0\n.model m0\n.end\n", ""),
        (17, 1, "", "impeccable: E6 too deep m17\n"),
    ];
    for (last, status, flat, told) in cases {
        let text = chain(alloc, last)?;
        let mut files = held(alloc, "e.blif", text, Vec::new(alloc))?;
        let ran = run_line(alloc, "flat e.blif", &mut files, Vec::new(alloc))?;
        assert_eq!(rt; ran.status, status);
        assert_eq!(rt; ran.out.bytes(), flat.as_bytes());
        assert_eq!(rt; ran.err.bytes(), told.as_bytes());
    }
    Ok(())
}

// A model has at most 4,096 inputs.
#[test]
fn sources_have_so_many_inputs(rt: HostRuntime) -> Result<(), Fail> {
    let alloc = rt.alloc();
    for (count, status, told) in [
        (4096, 0, ""),
        (4097, 1, "impeccable: E11 too large inputs\n"),
    ] {
        let mut text = b".model m\n".to_vec(alloc)?;
        for i in 0..count {
            let line = format!(in alloc; ".inputs a{i}\n")?;
            text.extend_from_slice(line.as_bytes())?;
        }
        let mut files = held(alloc, "e.blif", text, Vec::new(alloc))?;
        let ran = run_line(alloc, "flat e.blif", &mut files, Vec::new(alloc))?;
        assert_eq!(rt; ran.status, status);
        assert_eq!(rt; ran.err.bytes(), told.as_bytes());
    }
    Ok(())
}

// A text of 54,922 bytes takes four puts, for three full blocks and the rest: where a put fails, no later one is tried.
#[test]
fn texts_are_put_in_blocks(rt: HostRuntime) -> Result<(), Fail> {
    let alloc = rt.alloc();
    let mut text = b".model m\n".to_vec(alloc)?;
    for i in 0..4000 {
        let line = format!(in alloc; ".inputs a{i}\n")?;
        text.extend_from_slice(line.as_bytes())?;
    }
    let mut files = held(alloc, "e.blif", text, Vec::new(alloc))?;
    for (put, status, long) in [(3, 4, 32768), (4, 4, 49152), (5, 0, 54922)] {
        let ran = run_line(alloc, "flat e.blif", &mut files, vec![in alloc; (put, 0)]?)?;
        assert_eq!(rt; ran.status, status);
        assert_eq!(rt; ran.out.bytes().len(), long);
    }
    Ok(())
}

// Models without cells, in any number, have nothing to write but their ports.
#[test]
fn a_model_without_cells_is_placed(rt: HostRuntime) -> Result<(), Fail> {
    let alloc = rt.alloc();
    let text = b".model m\n.subckt s\n.end\n.model s\n".to_vec(alloc)?;
    let mut files = held(alloc, "e.blif", text, Vec::new(alloc))?;
    let ran = run_line(alloc, "flat e.blif", &mut files, Vec::new(alloc))?;
    assert_eq!(rt; ran.status, 0);
    assert_eq!(rt;
        ran.out.bytes(),
        b"# unknown inits 0\n.model m\n.end\n".as_slice()
    );
    Ok(())
}

const ADDER: &str =
    ".model add\n.inputs a b c\n.outputs s t\n.subckt half x=a y=b p=u q=v\n.subckt half x=u y=c p=s q=w\n\
    .names v w t\n1- 1\n-1 1\n.end\n.model half\n.inputs x y\n.outputs p q\n.names x y p\n10 1\n01 1\n\
    .names x y q\n11 1\n.end\n";

const CLOCKED: &str =
    "# Generated\n\n.model top\n.inputs clk en\n.outputs q[0]\n.names $false\n.names $true\n1\n.names $undef\n\
    .latch d$1 q[0] re clk 2\n.names en q[0] d$1\n10 1\n01 1\n.end\n";

// Sources and the streams of their inputs, with how their flat netlists begin and what these show.
#[test]
fn sources_are_flattened(rt: HostRuntime) -> Result<(), Fail> {
    let alloc = rt.alloc();
    let cases: [(&str, &str, [&[bool]; 4], &str); 5] = [
        // Lines in any order.
        (
            ".model r\n.inputs a\n.outputs y\n.names m y\n0 1\n.names a m\n0 1\n",
            "# unknown inits 0\n.model r\n.inputs a\n.outputs y\n.names ",
            [&[false], &[true], &[true], &[false]],
            "0 1 1 0 ",
        ),
        // A cover of three inputs.
        (
            ".model m\n.inputs a b c\n.outputs y\n.names a b c y\n11- 1\n--1 1\n",
            "# unknown inits 0\n.model m\n.inputs a\n.inputs b\n.inputs c\n.outputs y\n.names ",
            [
                &[true, true, false],
                &[true, false, false],
                &[false, false, true],
                &[false, true, false],
            ],
            "1 0 1 0 ",
        ),
        // Off-sets, constants and copies.
        (
            ".model c\n.inputs a b\n.outputs y z u v\n.names a b y\n00 0\n.names z\n.names $true\n1\n.names $true u\n1 1\n.names a b v\n1- 1\n.end\n",
            "# unknown inits 0\n.model c\n.inputs a\n.inputs b\n.outputs y\n.outputs z\n.outputs u\n.outputs v\n.names ",
            [
                &[false, false],
                &[false, true],
                &[true, false],
                &[true, true],
            ],
            "0010 1010 1011 1011 ",
        ),
        // A model that is placed twice.
        (
            ADDER,
            "# unknown inits 0\n.model add\n.inputs a\n.inputs b\n.inputs c\n.outputs s\n.outputs t\n.names ",
            [
                &[true, false, false],
                &[true, true, false],
                &[false, true, true],
                &[true, true, true],
            ],
            "10 01 01 11 ",
        ),
        // A clock, which is no data input.
        (
            CLOCKED,
            "# unknown inits 1\n.model top\n.inputs clk\n.inputs en\n.outputs q[0]\n.latch guard:n",
            [
                &[false, true],
                &[false, true],
                &[false, false],
                &[false, false],
            ],
            "0 1 0 0 ",
        ),
    ];
    for (text, front, stream, shown) in cases {
        let text = text.as_bytes().to_vec(alloc)?;
        let mut files = held(alloc, "e.blif", text, Vec::new(alloc))?;
        let ran = run_line(alloc, "flat e.blif", &mut files, Vec::new(alloc))?;
        assert_eq!(rt; ran.status, 0);
        assert_eq!(rt; ran.err.bytes(), b"".as_slice());
        assert!(rt; ran.out.bytes().starts_with(front.as_bytes()));
        let lines = slow_run(alloc, ran.out.bytes(), stream.as_slice())?;
        assert_eq!(rt; lines.as_slice(), shown.as_bytes());
    }
    Ok(())
}
