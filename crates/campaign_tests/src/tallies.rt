// The tallies of small guards of a toggle. The counts were made by a simulator of another language, which runs each fault to the
// end of the stimulus and sorts it by the whole run.
ghost use Rattle.std.specs.Prelude.{◌≡◌, ◌+◌, [], ◌∷◌, length, IfOk, IsTrue};
ghost use Rattle.guard_spec.specs.Codes.{data_places, rail_count};
ghost use Rattle.settings.specs.Types.{mode_in};

use blif_read::read;
use block_code::Code;
use campaign::{Tally, single};
use encode_state::types::Layout;
use fault_sim::Sim;
use gate_net::{Gate, GateNet, LatchRow, Machine, NetId, Op};
use settings::Mode;
use sim_text::Stimulus;
use std::alloc::{AllocError, Global};
use std::test::Fail;

const LONGEST_TEXT: usize = 2000;

// A guard of the toggle that keeps or corrects one faulty cell, a stimulus, and the cycle of the faults.
#[derive(Clone, Copy)]
struct Case {
    guard: &'static [u8],
    mode: Mode,
    stimulus: &'static [u8],
    cycle: u32,
    want: Tally,
}

// A latch that a data input turns, and that is shown.
fn toggle(alloc: Global) -> Result<Machine, AllocError>
    ensures { IfOk result (λ m. (m.inputs ≡ 1) × (length m.outputs ≡ 1)) }
{
    let mut net = GateNet::new(alloc, 2)?;
    let turned = net.push(Gate::Two {
        op: Op::XOR,
        a: NetId(0),
        b: NetId(1),
    })?;
    let latches = vec![in alloc;
        LatchRow {
            d: turned,
            init: false
        },
    ]?;
    let outputs = vec![in alloc; NetId(1)]?;
    Ok(Machine {
        net,
        inputs: 1,
        latches,
        outputs,
    })
}

// The latch and the output are a word each.
fn one_bit_words(alloc: Global) -> Result<Layout, AllocError>
    ensures { IfOk result (λ l. l.output ≡ (0 ∷ []) ∷ []) }
{
    let state = vec![in alloc; vec![in alloc; 0]?]?;
    let output = vec![in alloc; vec![in alloc; 0]?]?;
    Ok(Layout { state, output })
}

// The bit is repeated as often as it takes.
fn repetition(mode: Mode) -> Option<Code> {
    match mode {
        Mode::Detect => Code::new(1, 1, &[1]).ok(),
        Mode::Correct => Code::new(1, 2, &[3]).ok(),
    }
}

// Whether a guard has the data input and the outputs that are wanted.
fn has_shape(sim: &Sim, mode: Mode, code: &Code) -> bool
    ensures inputs { IsTrue result → length sim.now.inputs ≡ 1 }
    ensures outputs { IsTrue result → length sim.now.outputs ≡ 1 + code.now.columns + rail_count (mode_in mode) 1 }
    ensures places { IsTrue result → data_places code.now ≡ 1 }
{
    let rails = match mode {
        Mode::Detect => 2,
        Mode::Correct => 0,
    };
    sim.inputs() == 1 && sim.outputs() == 1 + u32::from(code.r()) + rails && code.k() == 1
}

// The tally of a case, or none where something of it is refused.
fn tally_of(alloc: Global, case: &Case) -> Option<Tally> {
    if case.guard.len() > LONGEST_TEXT || case.stimulus.len() > LONGEST_TEXT {
        return None;
    }
    let Ok(source) = toggle(alloc) else {
        return None;
    };
    let Ok(layout) = one_bit_words(alloc) else {
        return None;
    };
    let Ok(file) = read(alloc, case.guard) else {
        return None;
    };
    let Ok(stimulus) = Stimulus::read(alloc, case.stimulus, 1) else {
        return None;
    };
    let Ok(sim) = Sim::new(alloc, &file) else {
        return None;
    };
    let code = repetition(case.mode)?;
    if !has_shape(&sim, case.mode, &code) {
        return None;
    }
    let Ok(tally) = single(
        alloc, &file, &stimulus, case.cycle, &source, &layout, &code, case.mode, 1,
    ) else {
        return None;
    };
    Some(tally)
}

const fn tally(right: u64, alarmed: u64, decoded: u64, wrong: u64) -> Tally {
    Tally {
        right,
        alarmed,
        decoded,
        wrong,
    }
}

const fn detect(guard: &'static [u8], stimulus: &'static [u8], cycle: u32, want: Tally) -> Case {
    Case {
        guard,
        mode: Mode::Detect,
        stimulus,
        cycle,
        want,
    }
}

const fn correct(guard: &'static [u8], stimulus: &'static [u8], cycle: u32, want: Tally) -> Case {
    Case {
        guard,
        mode: Mode::Correct,
        stimulus,
        cycle,
        want,
    }
}

// A guard of the toggle as it is written: a check bit that repeats the bit, and two rails.
const GUARD: &[u8] =
    b"# unknown inits 0\n.model toggle\n.inputs e\n.outputs q\n.outputs guard:o0:c0\n\
.outputs guard:alarm0\n.outputs guard:alarm1\n.latch guard:d0:0 guard:s0:0 0\n\
.latch guard:d0:1 guard:s0:1 0\n.names e guard:s0:0 guard:d0:0\n01 1\n10 1\n\
.names e guard:s0:0 guard:d0:1\n01 1\n10 1\n.names guard:s0:0 q\n1 1\n\
.names guard:s0:0 guard:o0:c0\n1 1\n.names guard:n0\n\
.names guard:s0:1 guard:s0:0 guard:n1\n01 1\n10 1\n.names guard:n0 guard:n1 guard:n2\n\
01 1\n10 1\n11 1\n.names guard:o0:c0 q guard:n3\n01 1\n10 1\n\
.names guard:n2 guard:n3 guard:alarm0\n01 1\n10 1\n11 1\n.names guard:n4\n\
.names guard:s0:1 guard:s0:0 guard:n5\n01 1\n10 1\n.names guard:n4 guard:n5 guard:n6\n\
01 1\n10 1\n11 1\n.names guard:o0:c0 q guard:n7\n01 1\n10 1\n\
.names guard:n6 guard:n7 guard:alarm1\n01 1\n10 1\n11 1\n.end\n";

// Its rails are never 1.
const SILENT: &[u8] =
    b".model silent\n.inputs e\n.outputs q c r0 r1\n.latch n q 0\n.names e q n\n10 1\n01 1\n\
.names q c\n1 1\n.names r0\n.names r1\n.end\n";

// Wrong without faults too, from the fourth cycle on; its rails are never 1.
const LATE: &[u8] = b".model late\n.inputs e\n.outputs y c r0 r1\n.latch n q 0\n.latch one l1 0\n\
.latch l1 l2 0\n.latch l2 l3 0\n.names one\n1\n.names e q n\n10 1\n01 1\n.names q l3 y\n\
10 1\n01 1\n.names y c\n1 1\n.names r0\n.names r1\n.end\n";

// A fault that sets the latch h shows when e is 1 the next time; the rails are never 1.
const HELD: &[u8] =
    b".model held\n.inputs e\n.outputs y c r0 r1\n.latch n q 0\n.latch k h 0\n.names e q n\n\
10 1\n01 1\n.names h e k\n10 1\n.names h e b\n11 1\n.names q b y\n10 1\n01 1\n\
.names q c\n1 1\n.names r0\n.names r1\n.end\n";

// Corrects: three toggles, each of which stores on from the majority of all.
const TRIPLE: &[u8] = b".model triple\n.inputs e\n.outputs q c0 c1\n.latch n q 0\n.latch n0 c0 0\n\
.latch n1 c1 0\n.names q c0 c1 m\n11- 1\n1-1 1\n-11 1\n.names q c0 c1 m0\n11- 1\n1-1 1\n\
-11 1\n.names q c0 c1 m1\n11- 1\n1-1 1\n-11 1\n.names e m n\n10 1\n01 1\n\
.names e m0 n0\n10 1\n01 1\n.names e m1 n1\n10 1\n01 1\n.end\n";

// The same with one majority for all three, so that a fault there is wrong for good.
const ONCE: &[u8] =
    b".model once\n.inputs e\n.outputs q c0 c1\n.latch n q 0\n.latch n0 c0 0\n.latch n1 c1 0\n\
.names q c0 c1 m\n11- 1\n1-1 1\n-11 1\n.names e m n\n10 1\n01 1\n.names e m n0\n10 1\n\
01 1\n.names e m n1\n10 1\n01 1\n.end\n";

const SIX_CYCLES: &[u8] = b"1\n0\n1\n1\n0\n1\n";

const LONG: &[u8] = b"0\n0\n0\n0\n0\n0\n0\n0\n0\n0\n0\n0\n0\n0\n0\n0\n0\n0\n0\n0\n1\n0\n";

#[test]
fn faults_are_sorted_by_their_runs(rt: HostRuntime) -> Result<(), Fail> {
    let cases = [
        // most runs store what the run without faults does a cycle later, and two never do
        detect(GUARD, SIX_CYCLES, 1, tally(29, 3, 0, 0)),
        detect(GUARD, SIX_CYCLES, 5, tally(30, 2, 0, 0)),
        // behind the stimulus
        detect(GUARD, SIX_CYCLES, 6, tally(32, 0, 0, 0)),
        detect(GUARD, b"", 0, tally(32, 0, 0, 0)),
        detect(SILENT, SIX_CYCLES, 1, tally(8, 0, 0, 2)),
        // runs that meet the run without faults are wrong with it; a rail that is faulty at 1 was an alarm
        detect(LATE, SIX_CYCLES, 1, tally(0, 2, 0, 18)),
        detect(LATE, SIX_CYCLES, 4, tally(0, 0, 0, 20)),
        // wrong after twenty cycles
        detect(HELD, LONG, 0, tally(12, 0, 0, 6)),
        correct(TRIPLE, SIX_CYCLES, 1, tally(15, 0, 3, 0)),
        correct(ONCE, SIX_CYCLES, 1, tally(11, 0, 2, 1)),
        correct(ONCE, SIX_CYCLES, 5, tally(13, 0, 1, 0)),
    ];
    for case in &cases {
        assert_eq!(rt; tally_of(rt.alloc(), case), Some(case.want));
    }
    Ok(())
}
