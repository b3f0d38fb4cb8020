// The faults that scripts list, and their first lines at fault.
ghost use Rattle.std.specs.Prelude.{◌<◌, ◌^◌, length};

use blif_read::read;
use fault_script::{Script, ScriptFault};
use fault_sim::Sim;
use std::alloc::{AllocError, Global};
use std::test::Fail;

const LONGEST_TEXT: usize = 1000;

// A data input i, and the cells q, n, `b\d` and c0 to c16, with the numbers 0 to 19.
const NETLIST: &[u8] =
    b".model t\n.inputs i\n.outputs q\n.latch n q 0\n.names q n\n0 1\n.names b\\d # a name\n.names c0\n.names c1\n.names c2\n.names c3\n.names c4\n.names c5\n.names c6\n.names c7\n.names c8\n.names c9\n.names c10\n.names c11\n.names c12\n.names c13\n.names c14\n.names c15\n.names c16\n.end\n";

// Appends the cells that are faulty in a cycle, each with its bit.
fn push_faults(
    alloc: Global,
    text: &mut Vec<u8>,
    script: &Script,
    cycle: u32,
) -> Result<(), AllocError> {
    for fault in script.at(cycle).as_slice() {
        let cell = fault.cell.0;
        let bit = u8::from(fault.value);
        text.extend_from_slice(format!(in alloc; "{cell}={bit} ")?.as_bytes())?;
    }
    text.push(b'|')?;
    Ok(())
}

// What the cycles 0, 1, 12 and 999,999 have, or the line at fault.
fn told(alloc: Global, sim: &Sim, bytes: &[u8]) -> Result<Vec<u8>, AllocError>
    requires { length bytes.now < 2 ^ 32 }
{
    let mut text = Vec::new(alloc);
    match Script::read(alloc, bytes, sim) {
        Ok(script) => {
            for cycle in [0, 1, 12, 999_999] {
                push_faults(alloc, &mut text, &script, cycle)?;
            }
        }
        Err(ScriptFault::BadScript(line)) => {
            text.extend_from_slice(format!(in alloc; "bad {line}")?.as_bytes())?;
        }
        Err(ScriptFault::NoSuchCell(line)) => {
            text.extend_from_slice(format!(in alloc; "no cell {line}")?.as_bytes())?;
        }
        Err(ScriptFault::MoreThanSixteen(line)) => {
            text.extend_from_slice(format!(in alloc; "more {line}")?.as_bytes())?;
        }
        Err(ScriptFault::NoMemory) => return Err(AllocError),
    }
    Ok(text)
}

const SIXTEEN: &[u8] =
    b"1 c0 1\n1 c1 1\n1 c2 1\n1 c3 1\n1 c4 1\n1 c5 1\n1 c6 1\n1 c7 1\n1 c8 1\n1 c9 1\n1 c10 1\n1 c11 1\n1 c12 1\n1 c13 1\n1 c14 1\n1 c15 0\n";

#[test]
fn faults_and_first_lines_at_fault(rt: HostRuntime) -> Result<(), Fail> {
    let cases: [(&[u8], &[u8]); 25] = [
        (b"", b"||||"),
        (b"# none\n\n \t\r\n", b"||||"),
        // lines in any order; blanks, comments and CR LF
        (
            b"1 q 0\r\n0 n 1 # a comment\n\t1   n\t1",
            b"1=1 |0=0 1=1 |||",
        ),
        (b"12 q 1\n000012 n 0\n000001 c0 1\n", b"|3=1 |0=1 1=0 ||"),
        (b"999999 q 1\n", b"|||0=1 |"),
        // the same cell in another cycle, and another cell in the same one
        (b"0 q 1\n1 q 1\n0 n 1\n", b"0=1 1=1 |0=1 |||"),
        // a backslash is a byte like others, and joins no line
        (b"0 b\\d 1\n1 q 1\n", b"2=1 |0=1 |||"),
        (b"0 q 1 \\\n", b"bad 1"),
        (b"0 q\\ 1\n", b"no cell 1"),
        // no cycle of six digits
        (b"1000000 q 1\n", b"bad 1"),
        (b"0000001 q 1\n", b"bad 1"),
        (b"-1 q 1\n", b"bad 1"),
        (b"0x1 q 1\n", b"bad 1"),
        // no bit
        (b"0 q 2\n", b"bad 1"),
        (b"0 q 01\n", b"bad 1"),
        // two words and four
        (b"0 n 1\n\n1 q\n", b"bad 3"),
        (b"1 q 0 1\n", b"bad 1"),
        // no cell
        (b"0 nosuch 1\n", b"no cell 1"),
        (b"# one\n0 i 1\n", b"no cell 2"),
        (b"0 t 1\n", b"no cell 1"),
        // the form is told before the cell, and the first line before all others
        (b"0 nosuch 2\n", b"bad 1"),
        (b"0 nosuch 1\n0 q\n", b"no cell 1"),
        // the same cycle and cell, in two spellings
        (b"1 q 0\n1 q 1\n", b"bad 2"),
        (b"1 q 0\n2 q 0\n01 q 0\n", b"bad 3"),
        (
            SIXTEEN,
            b"|3=1 4=1 5=1 6=1 7=1 8=1 9=1 10=1 11=1 12=1 13=1 14=1 15=1 16=1 17=1 18=0 |||",
        ),
    ];
    let alloc = rt.alloc();
    assert!(rt; NETLIST.len() < LONGEST_TEXT);
    let Ok(file) = read(alloc, NETLIST) else {
        panic!(rt; "not read");
    };
    let Ok(sim) = Sim::new(alloc, &file) else {
        panic!(rt; "no simulator");
    };
    for (bytes, want) in cases {
        assert!(rt; bytes.len() < LONGEST_TEXT);
        assert_eq!(rt; told(alloc, &sim, bytes)?.as_slice(), want);
    }
    for (line, want) in [
        (b"1 c16 1\n".as_slice(), b"more 17".as_slice()),
        (b"1 c5 0\n", b"bad 17"),
        (b"1 nosuch 0\n", b"no cell 17"),
    ] {
        let mut bytes = SIXTEEN.to_vec(alloc)?;
        bytes.extend_from_slice(line)?;
        assert!(rt; bytes.len() < LONGEST_TEXT);
        assert_eq!(rt; told(alloc, &sim, &bytes)?.as_slice(), want);
    }
    Ok(())
}
