ghost use Rattle.std.specs.Prelude.{◌≡◌, ◌<◌, ◌^◌, length};

use sim_text::{StimFault, Stimulus};
use std::alloc::{AllocError, Global};
use std::test::Fail;

// The bits of a cycle as text, with a bar behind them.
fn push_row(
    alloc: Global,
    text: &mut Vec<u8>,
    stimulus: &Stimulus,
    c: u32,
    inputs: u32,
) -> Result<(), AllocError>
    requires cycle { c < length stimulus.now.cycles }
    requires width { stimulus.now.inputs ≡ inputs }
{
    let mut x = vec![in alloc; false; inputs as usize]?;
    stimulus.row(c, &mut x);
    for bit in &x {
        text.push(if *bit { b'1' } else { b'0' })?;
    }
    text.push(b'|')?;
    Ok(())
}

// The rows of a stimulus as text, or its line at fault.
fn told(alloc: Global, bytes: &[u8], inputs: u32) -> Result<Vec<u8>, AllocError>
    requires { length bytes.now < 2 ^ 32 }
{
    let mut text = Vec::new(alloc);
    match Stimulus::read(alloc, bytes, inputs) {
        Ok(stimulus) => {
            for c in 0..stimulus.cycles() {
                push_row(alloc, &mut text, &stimulus, c, inputs)?;
            }
        }
        Err(StimFault::BadStimulus(line)) => {
            text.extend_from_slice(format!(in alloc; "line {line}")?.as_bytes())?;
        }
        Err(StimFault::NoMemory) => return Err(AllocError),
    }
    Ok(text)
}

#[derive(Clone, Copy)]
struct Case {
    bytes: &'static [u8],
    inputs: u32,
    want: &'static [u8],
}

const fn make_case(bytes: &'static [u8], inputs: u32, want: &'static [u8]) -> Case {
    Case {
        bytes,
        inputs,
        want,
    }
}

#[test]
fn rows_and_first_faults(rt: HostRuntime) -> Result<(), Fail> {
    let cases = [
        make_case(b"", 2, b""),
        make_case(b"# no cycle\n\n  \r\n", 2, b""),
        make_case(b"01\r\n10 # a comment\n\t11", 2, b"01|10|11|"),
        make_case(b"-\n-\n", 0, b"||"),
        // a backslash is a byte like others, and joins no line
        make_case(b"01\\\n", 3, b"line 1"),
        make_case(b"01 \\\n10\n", 2, b"line 1"),
        // too short, too long, another character
        make_case(b"01\n\n1\n", 2, b"line 3"),
        make_case(b"01\n011\n", 2, b"line 2"),
        make_case(b"02\n", 2, b"line 1"),
        make_case(b"0 1\n", 2, b"line 1"),
        // a dash where there are data inputs, and bits where there is none
        make_case(b"-\n", 1, b"line 1"),
        make_case(b"#\n0\n", 0, b"line 2"),
        make_case(b"--\n", 0, b"line 1"),
    ];
    let alloc = rt.alloc();
    for case in &cases {
        assert!(rt; case.bytes.len() < 100);
        assert_eq!(rt; told(alloc, case.bytes, case.inputs)?.as_slice(), case.want);
    }
    Ok(())
}

#[test]
fn a_million_cycles_at_most(rt: HostRuntime) -> Result<(), Fail> {
    let alloc = rt.alloc();
    let mut text = Vec::new(alloc);
    for _ in 0..1_000_000u32 {
        text.extend_from_slice(b"-\n")?;
    }
    assert!(rt; text.len() < 3_000_000);
    match Stimulus::read(alloc, &text, 0) {
        Ok(stimulus) => assert_eq!(rt; stimulus.cycles(), 1_000_000),
        Err(_) => panic!(rt; "a fault"),
    }
    text.extend_from_slice(b"-")?;
    assert!(rt; text.len() < 3_000_000);
    match Stimulus::read(alloc, &text, 0) {
        Err(StimFault::BadStimulus(line)) => assert_eq!(rt; line, 1_000_001),
        _ => panic!(rt; "no line"),
    }
    Ok(())
}
