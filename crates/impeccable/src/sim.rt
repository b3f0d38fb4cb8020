// The command `sim NETLIST STIMULUS SCRIPT`.
ghost use Rattle.std.specs.Prelude.{◌≡◌, ◌<◌, ◌++◌, ◌∷◌, [], List, ℕ, length, IfOk};
ghost use Rattle.imp_io.specs.Blocks.{Gives};
ghost use Rattle.imp_io.specs.Files.{IsLater};
ghost use Rattle.imp_io.specs.Sink.{Puts};
ghost use Rattle.netlist_spec.specs.Runs.{Fault};
ghost use Rattle.netlist_spec.specs.SourceRun.{Bits};
ghost use Rattle.netlist_spec.specs.Statements.{bit_char};
ghost use Rattle.stimulus_spec.specs.Stimulus.{script_of};
ghost use Rattle.program_spec.specs.Commands.{other_limit, sim as sim_command};
ghost use Rattle.program_spec.specs.Printed.{bits_text, outputs_text, run_text};
ghost use Rattle.program_spec.specs.Refusals.{bad_script_line};
ghost use Rattle.program_spec.specs.Steps.{gives};
ghost use Rattle.fault_script.specs.Scripts.{HasFaults};
ghost use Rattle.impeccable.specs.Answers.{Answers, KeepsOwn};
ghost use Rattle.impeccable.specs.Ended.{answer_of, part_answer};
ghost use Rattle.impeccable.specs.Loads.{LoadsTested};
ghost use Rattle.impeccable.specs.Sim.{HasPlaces, IsCycle, IsReady, IsTextOfRun, Ran};
ghost use Rattle.impeccable.specs.Steps.{PreparesEach};

use crate::ended::{Ended, Stop, Success};
use crate::load::load_named;
use crate::netlist::load_netlist;
use crate::stimulus_file::load_stimulus;
use fault_script::Script;
use fault_sim::{Sim, cycles_make_a_run};
use imp_io::{Blocks, Files, Sink, SinkFault};
use sim_text::Stimulus;
use std::alloc::Global;

const LONGEST_SCRIPT: usize = 16_777_216;

// A netlist with all that it is simulated on, and the bits of the data inputs and of the outputs in one cycle.
#[derive(Drop)]
struct Simulation {
    sim: Sim,
    stimulus: Stimulus,
    script: Script,
    inputs: Vec<bool>,
    outputs: Vec<bool>,
}

/// Simulates the netlist of that name on the stimulus under the faults of the script, and writes the outputs of each cycle.
pub(crate) fn write_run<'a, F: Files, O: Sink>(
    alloc: Global,
    netlist: &'a str,
    stimulus: &'a str,
    script: &'a str,
    files: &mut F,
    out: &mut O,
) -> Ended<'a>
    ensures answers { Answers (sim_command netlist.now stimulus.now script.now) (F.seen files.old) (F.seen files.new) (O.seen out.old) (O.seen out.new) (answer_of result) }
    ensures own { KeepsOwn (F.seen files.old) (F.seen files.new) (answer_of result) }
    ensures later { IsLater (F.seen files.old) (F.seen files.new) }
{
    let mut simulation = prepare(alloc, netlist, stimulus, script, files)?;
    write_cycles(&mut simulation, out)?;
    Ok(Success::Done)
}

// Loads and reads the three files, in the order in which they are refused, and makes room for the bits of a cycle.
fn prepare<'a, F: Files>(
    alloc: Global,
    netlist: &'a str,
    stimulus: &'a str,
    script: &'a str,
    files: &mut F,
) -> Result<Simulation, Stop<'a>>
    ensures prepares { PreparesEach (sim_command netlist.now stimulus.now script.now) IsTextOfRun (F.seen files.old) result (F.seen files.new) }
    ensures ready { IfOk result IsReady }
    ensures own { KeepsOwn (F.seen files.old) (F.seen files.new) (part_answer result) }
    ensures later { IsLater (F.seen files.old) (F.seen files.new) }
{
    let file = load_netlist(alloc, files, netlist)?;
    let sim = Sim::new(alloc, &file)?;
    let stimulus = load_stimulus(alloc, files, stimulus, sim.inputs())?;
    let script = load_script(alloc, files, script, &sim)?;
    let inputs = vec![in alloc; false; sim.inputs() as usize]?;
    let outputs = vec![in alloc; false; sim.outputs() as usize]?;
    Ok(Simulation {
        sim,
        stimulus,
        script,
        inputs,
        outputs,
    })
}

// Loads and reads the script of that name, for the cells of a simulator.
fn load_script<'a, F: Files>(
    alloc: Global,
    files: &mut F,
    script: &'a str,
    sim: &Sim,
) -> Result<Script, Stop<'a>>
    ensures faults { LoadsTested (List Fault) (F.seen files.old) script.now other_limit (λ bytes. gives _ _ (script_of sim.now.cells bytes) bad_script_line) (λ made found. HasFaults sim.now.cells found made) result (F.seen files.new) }
    ensures own { KeepsOwn (F.seen files.old) (F.seen files.new) (part_answer result) }
    ensures later { IsLater (F.seen files.old) (F.seen files.new) }
{
    let bytes = load_named(alloc, files, script, LONGEST_SCRIPT)?;
    let script = Script::read(alloc, &bytes, sim)?;
    Ok(script)
}

// Simulates all cycles, and writes their lines.
fn write_cycles<O: Sink>(simulation: &mut Simulation, out: &mut O) -> Result<(), SinkFault>
    requires { IsReady simulation.old }
    ensures { (text : List ℕ) × IsTextOfRun simulation.old text × Puts (O.seen out.old) text result (O.seen out.new) }
{
    let mut blocks = Blocks::new(out);
    put_cycles(simulation, &mut blocks);
    blocks.flush()
}

fn put_cycles<O: Sink>(simulation: &mut Simulation, out: &mut Blocks<'_, O>)
    requires { IsReady simulation.old }
    ensures { (outs : List Bits) × Ran simulation.old (length simulation.old.stimulus.cycles) outs simulation.new × Gives O.seen out.old (run_text outs) out.new }
{
    // What the law says is known behind its call.
    cycles_make_a_run();
    for c in 0..simulation.stimulus.cycles() {
        cycle(simulation, c);
        put_line(&simulation.outputs, out);
    }
}

// Simulates one cycle.
fn cycle(simulation: &mut Simulation, c: u32)
    requires fits { HasPlaces simulation.old }
    requires cycle { c < length simulation.old.stimulus.cycles }
    ensures { IsCycle simulation.old c simulation.new }
{
    simulation.stimulus.row(c, &mut simulation.inputs);
    let faults = simulation.script.at(c);
    simulation
        .sim
        .cycle(&simulation.inputs, &faults, &mut simulation.outputs);
}

// The line of a cycle: a character for each output, or `-` where there is none.
fn put_line<O: Sink>(bits: &[bool], out: &mut Blocks<'_, O>)
    ensures { Gives O.seen out.old (outputs_text bits.now ++ 10 ∷ []) out.new }
{
    if bits.is_empty() {
        out.put(b"-\n");
    } else {
        put_bits(bits, out);
        out.put(b"\n");
    }
}

fn put_bits<O: Sink>(bits: &[bool], out: &mut Blocks<'_, O>)
    ensures { Gives O.seen out.old (bits_text bits.now) out.new }
{
    for bit in bits {
        out.put(&[char_of(*bit)]);
    }
}

fn char_of(bit: bool) -> u8
    ensures { result ≡ bit_char bit }
{
    if bit { b'1' } else { b'0' }
}
