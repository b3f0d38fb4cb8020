// The inits of encoded registers.

use blif_read::read;
use elaborate::elaborate;
use encode_state::{initial, layout};
use std::alloc::{AllocError, Global};
use std::test::Fail;

const LONGEST_TEXT: usize = 1000;

// The codewords that the state words of a short source start with. None where the source or its settings are refused.
fn initial_words(
    alloc: Global,
    netlist: &[u8],
    settings: &[u8],
) -> Result<Option<Vec<u32>>, AllocError> {
    if netlist.len() > LONGEST_TEXT {
        return Ok(None);
    }
    let Ok(s) = settings::read(alloc, settings) else {
        return Ok(None);
    };
    let Ok(file) = read(alloc, netlist) else {
        return Ok(None);
    };
    let Ok(e) = elaborate(alloc, file, &s.tables, &s.linears) else {
        return Ok(None);
    };
    let Ok(l) = layout(alloc, &e, &s) else {
        return Ok(None);
    };
    let mut words = Vec::new(alloc);
    for w in 0..u32::try_from(l.state.len()).unwrap_or(0) {
        words.push(initial(&e.machine, &l, &s.code, w).0)?;
    }
    Ok(Some(words))
}

#[test]
fn words_start_as_codewords(rt: HostRuntime) -> Result<(), Fail> {
    let settings =
        b"mode = \"detect\"\nbound = 3\ncheck = [\"0111\", \"1011\", \"1101\", \"1110\"]\n";
    let text = b".model shift\n.inputs x\n.outputs e\n\
.latch x a 1\n.latch a b 0\n.latch b c 0\n.latch c d 0\n.latch d e 1\n.end\n";
    let words = initial_words(rt.alloc(), text, settings)?.ok_or("it has a meaning")?;
    // Bit i is place i: 1000 with the check bits 0111, and 1 with 0111.
    let expected = [0b1110_0001, 0b1_1101];
    assert_eq!(rt; words.as_slice(), expected.as_slice());
    Ok(())
}
