// The outputs of small netlists, cycle by cycle.
use blif_read::read;
use fault_sim::{CellFault, CellId, Sim, SimFault};
use std::alloc::{AllocError, Global};
use std::test::Fail;

const LONGEST_TEXT: usize = 1000;

// A cycle, the net of a cell that is faulty in it, and the bit that this cell gives.
type Listed = (u32, &'static [u8], bool);

#[derive(Clone, Copy)]
struct Case {
    text: &'static [u8],
    // the bits of the data inputs, a word for each cycle
    inputs: &'static [&'static [u8]],
    faults: &'static [Listed],
    want: &'static [u8],
}

// Appends the outputs of one cycle, or a mark where the inputs or the faults don't fit.
fn push_cycle(
    alloc: Global,
    sim: &mut Sim,
    bits: &[u8],
    faults: &[CellFault],
    text: &mut Vec<u8>,
) -> Result<(), AllocError> {
    let x: Vec<bool> = bits.iter().map(|bit| *bit == b'1').collect(alloc)?;
    let mut out = vec![in alloc; false; sim.outputs() as usize]?;
    let cells = sim.cells();
    if x.len() != sim.inputs() as usize || !faults.iter().all(|fault| fault.cell.0 < cells) {
        text.push(b'!')?;
        return Ok(());
    }
    sim.cycle(&x, faults, &mut out);
    for bit in &out {
        text.push(if *bit { b'1' } else { b'0' })?;
    }
    text.push(b'|')?;
    Ok(())
}

// The listed faults of a cycle.
fn faults_of(
    alloc: Global,
    sim: &Sim,
    listed: &[Listed],
    cycle: u32,
) -> Result<Vec<CellFault>, AllocError> {
    let mut faults = Vec::new(alloc);
    for (at, net, value) in listed {
        if *at == cycle {
            let cell = sim.cell(net).unwrap_or(CellId(u32::MAX));
            faults.push(CellFault {
                cell,
                value: *value,
            })?;
        }
    }
    Ok(faults)
}

fn simulator(alloc: Global, text: &[u8]) -> Result<Sim, SimFault> {
    if text.len() > LONGEST_TEXT {
        return Err(SimFault::NoMemory);
    }
    let Ok(file) = read(alloc, text) else {
        return Err(SimFault::NoMemory);
    };
    Sim::new(alloc, &file)
}

// The outputs of each cycle, or the line at fault.
fn told(alloc: Global, case: &Case) -> Result<Vec<u8>, AllocError> {
    let mut text = Vec::new(alloc);
    match simulator(alloc, case.text) {
        Ok(mut sim) => {
            let mut cycle = 0;
            for bits in case.inputs {
                let faults = faults_of(alloc, &sim, case.faults, cycle)?;
                push_cycle(alloc, &mut sim, bits, &faults, &mut text)?;
                cycle = u32::min(cycle, 100) + 1;
            }
        }
        Err(SimFault::Unordered(line)) => {
            text.extend_from_slice(format!(in alloc; "unordered {line}")?.as_bytes())?;
        }
        Err(SimFault::HasSubckt(line)) => {
            text.extend_from_slice(format!(in alloc; "subckt {line}")?.as_bytes())?;
        }
        Err(SimFault::NoMemory) => return Err(AllocError),
    }
    Ok(text)
}

const fn make_case(
    text: &'static [u8],
    inputs: &'static [&'static [u8]],
    faults: &'static [Listed],
    want: &'static [u8],
) -> Case {
    Case {
        text,
        inputs,
        faults,
        want,
    }
}

const TOGGLE: &[u8] = b".model inv\n.outputs q\n.latch n q 0\n.names q n\n0 1\n.end\n";

const SHIFT: &[u8] = b".model s\n.inputs x\n.outputs e\n.latch x e 0\n.end\n";

const LOOP: &[u8] = b".model l\n.outputs a\n.latch a a 0\n.end\n";

const CHAIN: &[u8] =
    b".model c\n.inputs x\n.outputs e\n.latch x a 0\n.latch a b 0\n.latch b c 0\n.latch c d 0\n.latch d e 0\n.end\n";

const JOINED: &[u8] =
    b".model j\n.inputs a b\n.outputs y m\n.names a m\n1 1\n.names b n\n1 1\n.names m n y\n11 1\n.end\n";

#[test]
fn values_of_covers_and_latches(rt: HostRuntime) -> Result<(), Fail> {
    let cases = [
        // covers of the off-set, without rows, constants, and a row with a dash
        make_case(
            b".model c\n.inputs a b\n.outputs y z u v\n.names a b y\n00 0\n.names z\n.names $true\n1\n.names $true u\n1 1\n.names a b v\n1- 1\n.end\n",
            &[b"00", b"01", b"10", b"11"],
            &[],
            b"0010|1010|1011|1011|",
        ),
        make_case(
            b".model m\r\n.inputs a \\\n b\n.outputs y\n.names a b y # and\n11 1 # row",
            &[b"10", b"11"],
            &[],
            b"0|1|",
        ),
        // wide covers of the on-set and of the off-set
        make_case(
            b".model w\n.inputs a b c d e\n.outputs y z\n.names a b c d e y\n1--01 1\n01--- 1\n.names a b c z\n1-0 0\n.end\n",
            &[b"10001", b"10011", b"01111", b"00000", b"10101", b"11010"],
            &[],
            b"10|00|11|01|11|00|",
        ),
        // an output that is a data input, and no data input
        make_case(
            b".model o\n.inputs a\n.outputs a y\n.names y\n1\n.end\n",
            &[b"0", b"1"],
            &[],
            b"01|11|",
        ),
        // a clock is no data input, and an unknown init is 0
        make_case(
            b".model top\n.inputs clk en\n.outputs q\n.latch d q re clk 2\n.names en q d\n10 1\n01 1\n.end\n",
            &[b"1", b"1", b"0", b"1"],
            &[],
            b"0|1|0|0|",
        ),
        make_case(
            b".model i\n.outputs a b c d e\n.latch a a 0\n.latch b b 1\n.latch c c 2\n.latch d d 3\n.latch e e\n.end\n",
            &[b"", b""],
            &[],
            b"01000|01000|",
        ),
        // inputs that don't fit, and files that aren't in order
        make_case(TOGGLE, &[b"1"], &[], b"!"),
        make_case(
            b".model r\n.inputs a\n.outputs y\n.names m y\n0 1\n.names a m\n0 1\n",
            &[],
            &[],
            b"unordered 4",
        ),
        make_case(b".model m\n.subckt s a=b\n", &[], &[], b"subckt 2"),
    ];
    for case in &cases {
        assert_eq!(rt; told(rt.alloc(), case)?.as_slice(), case.want);
    }
    Ok(())
}

#[test]
fn faults_of_cells(rt: HostRuntime) -> Result<(), Fail> {
    let cases = [
        make_case(TOGGLE, &[b"", b"", b"", b""], &[], b"0|1|0|1|"),
        // a faulty latch shows its fault, and its readers see it
        make_case(
            TOGGLE,
            &[b"", b"", b"", b""],
            &[(1, b"q", false)],
            b"0|0|1|0|",
        ),
        // a faulty gate is stored
        make_case(
            TOGGLE,
            &[b"", b"", b"", b""],
            &[(0, b"n", false)],
            b"0|0|1|0|",
        ),
        // a faulty latch stores its D, and not its fault
        make_case(
            SHIFT,
            &[b"0", b"0", b"1", b"0"],
            &[(1, b"e", true)],
            b"0|1|0|1|",
        ),
        // so also one whose D is its own output, which then is the faulty net
        make_case(LOOP, &[b"", b"", b""], &[(1, b"a", true)], b"0|1|1|"),
        // a chain stores at once: a bit takes a cycle for each latch
        make_case(
            CHAIN,
            &[b"1", b"0", b"0", b"0", b"0", b"0", b"0"],
            &[(4, b"b", true)],
            b"0|0|0|0|0|1|0|",
        ),
        make_case(
            CHAIN,
            &[b"0", b"0", b"0", b"0"],
            &[(0, b"d", true)],
            b"0|1|0|0|",
        ),
        // two faults of one cycle, and none in the others
        make_case(
            JOINED,
            &[b"00", b"00", b"11"],
            &[(1, b"m", true), (1, b"n", true)],
            b"00|11|11|",
        ),
        // a fault of an output alone, and one that a cell has anyway
        make_case(
            JOINED,
            &[b"11", b"11"],
            &[(0, b"y", false), (1, b"m", true)],
            b"01|11|",
        ),
        // a data input is no cell
        make_case(SHIFT, &[b"0"], &[(0, b"x", true)], b"!"),
    ];
    for case in &cases {
        assert_eq!(rt; told(rt.alloc(), case)?.as_slice(), case.want);
    }
    Ok(())
}

#[test]
fn cells_in_file_order_and_reset(rt: HostRuntime) -> Result<(), Fail> {
    let alloc = rt.alloc();
    match simulator(alloc, TOGGLE) {
        Ok(mut sim) => {
            assert_eq!(rt; sim.cells(), 2);
            assert_eq!(rt; sim.inputs(), 0);
            assert_eq!(rt; sim.outputs(), 1);
            assert_eq!(rt; sim.cell(b"q"), Some(CellId(0)));
            assert_eq!(rt; sim.cell(b"n"), Some(CellId(1)));
            assert_eq!(rt; sim.cell(b"inv"), None);
            let mut text = Vec::new(alloc);
            push_cycle(alloc, &mut sim, b"", &[], &mut text)?;
            sim.reset();
            push_cycle(alloc, &mut sim, b"", &[], &mut text)?;
            push_cycle(alloc, &mut sim, b"", &[], &mut text)?;
            assert_eq!(rt; text.as_slice(), b"0|0|1|".as_slice());
        }
        Err(_) => panic!(rt; "no simulator"),
    }
    Ok(())
}
