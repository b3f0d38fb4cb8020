// Plain sizes of guards of sources.

use crate::designs::{demo, present80};
use blif_read::read;
use encode_state::layout_of;
use plain_size::size_of_checked;
use source_check::check;
use std::alloc::{AllocError, Global};
use std::test::Fail;

const LONGEST_TEXT: usize = 100_000_000;

// What is found of a source with its settings.
#[derive(Clone, Copy, Debug, PartialEq, Eq)]
enum Found {
    // One of the two is refused before there is a size, or memory is wanting.
    Refused,
    TooLarge,
    Plain(u32),
}

fn size(alloc: Global, netlist: &[u8], settings: &[u8]) -> Result<Found, AllocError> {
    if netlist.len() > LONGEST_TEXT {
        return Ok(Found::Refused);
    }
    let Ok(s) = settings::read(alloc, settings) else {
        return Ok(Found::Refused);
    };
    let Ok(file) = read(alloc, netlist) else {
        return Ok(Found::Refused);
    };
    let Ok(checked) = check(alloc, &file, &s.tables, &s.linears) else {
        return Ok(Found::Refused);
    };
    let Ok(l) = layout_of(alloc, &file.models[0], &s) else {
        return Ok(Found::Refused);
    };
    match size_of_checked(alloc, &file, &checked, &s, &l)? {
        Some(n) => Ok(Found::Plain(n)),
        None => Ok(Found::TooLarge),
    }
}

const PARITY: &[u8] = b"mode = \"detect\"\nbound = 1\ncheck = [\"1\"]\n";

const FOUR_ROWS: &[u8] =
    b"mode = \"detect\"\nbound = 3\ncheck = [\"0111\", \"1011\", \"1101\", \"1110\"]\n\
[sbox.present]\ninputs = 4\noutputs = 4\nvalues = [12, 5, 6, 11, 9, 0, 10, 13, 3, 14, 15, 8, 4, 7, 1, 2]\n";

#[test]
fn an_inverter_behind_a_latch(rt: HostRuntime) -> Result<(), Fail> {
    let text = b".model inv\n.outputs q\n.latch n q 0\n.names q n\n0 1\n.end\n";
    let found = size(rt.alloc(), text, PARITY)?;
    assert_eq!(rt; found, Found::Plain(38));
    Ok(())
}

// A cover of so many rows, and one of a row.
fn many_rows(alloc: Global, rows: u32) -> Result<Vec<u8>, AllocError> {
    let mut text = b".model big\n.inputs a\n.outputs y z\n.names a y\n".to_vec(alloc)?;
    for _ in 0..rows {
        text.extend_from_slice(b"1 1\n")?;
    }
    text.extend_from_slice(b".names a z\n1 1\n.end\n")?;
    Ok(text)
}

#[test]
fn the_limit_is_a_million(rt: HostRuntime) -> Result<(), Fail> {
    let alloc = rt.alloc();
    for (rows, expected) in [
        (124_995, Found::Plain(1_000_000)),
        (124_996, Found::TooLarge),
    ] {
        let text = many_rows(alloc, rows)?;
        let found = size(alloc, &text, PARITY)?;
        assert_eq!(rt; found, expected, "with {rows} rows");
    }
    Ok(())
}

#[test]
fn whole_designs(rt: HostRuntime) -> Result<(), Fail> {
    let alloc = rt.alloc();
    for (n, plain) in [(1, 4_724), (64, 302_084)] {
        let text = demo(alloc, n)?;
        let found = size(alloc, &text, FOUR_ROWS)?;
        assert_eq!(rt; found, Found::Plain(plain), "with {n} S-boxes");
    }
    let text = present80(alloc)?;
    let found = size(alloc, &text, FOUR_ROWS)?;
    assert_eq!(rt; found, Found::Plain(105_245));
    Ok(())
}
