// The top call.
ghost use Rattle.std.specs.Prelude.{◌≡◌, ◌↔◌, map, string_bytes, IfSome};
ghost use Rattle.imp_io.specs.Files.{IsLater};
ghost use Rattle.program_spec.specs.Commands.{command_of};
ghost use Rattle.program_spec.specs.ErrorLines.{Answer, usage};
ghost use Rattle.impeccable.specs.Answers.{Answers, AnswersDemo, FindsThere, IsComplete, KeepsOwn, RefusesThere};
ghost use Rattle.impeccable.specs.Command.{CanPerform, as_asked};
ghost use Rattle.impeccable.specs.declared.outcome.Outcome.{Outcome as AnyOutcome};
ghost use Rattle.impeccable.specs.Ended.{answer_of};
ghost use Rattle.impeccable.specs.Outcome.{IsAnswer};
ghost use Rattle.impeccable.specs.Says.{Says};

use crate::Outcome;
use crate::audit::write_audit;
use crate::campaign_run::write_campaign;
use crate::code::report_code;
use crate::command::{Command, read_command};
use crate::demo::write_demo;
use crate::ended::{Ended, Stop, outcome_of};
use crate::error_line::tell;
use crate::flat::write_flat;
use crate::guard::write_guard;
use crate::sim::write_run;
use imp_io::{Files, Sink};
use std::alloc::Global;

/// What the words ask for, over any files and sinks. The words are those of a command line without the program's
/// own name: `flat NETLIST`, `code SETTINGS`, `guard SETTINGS NETLIST`, `sim NETLIST STIMULUS SCRIPT`, `audit NETLIST`,
/// `campaign SETTINGS NETLIST STIMULUS CYCLE` with a cycle of 1 to 6 digits, or `demo N` with a number from 1 to 64.
pub fn run<F: Files, O: Sink, E: Sink>(
    alloc: Global,
    words: &[String],
    files: &mut F,
    out: &mut O,
    err: &mut E,
) -> Outcome
    // The words alone decide on `Usage`, and then nothing is touched.
    ensures usage { (result ≡ Outcome.Usage) ↔ (command_of (map string_bytes words.now) ≡ None) }
    ensures untouched { result ≡ Outcome.Usage → (files.new ≡ files.old) × (out.new ≡ out.old) }

    // What each other outcome says, and its line on `err`. That of a read fault names the file whose load failed.
    ensures answers { IfSome (command_of (map string_bytes words.now)) (λ command.
        (answer : Answer) × IsAnswer result answer
        × Answers command (F.seen files.old) (F.seen files.new) (O.seen out.old) (O.seen out.new) answer
        × KeepsOwn (F.seen files.old) (F.seen files.new) answer
        × Says answer (E.seen err.old) (E.seen err.new)) }

    // When an outcome must come, want of memory aside.
    ensures complete { IfSome (command_of (map string_bytes words.now)) (λ command.
        IsComplete command (F.seen files.old) (F.seen files.new) (O.seen out.old) (O.seen out.new) result) }
    ensures finds { IfSome (command_of (map string_bytes words.now)) (λ command.
        FindsThere command (F.seen files.old) (F.seen files.new) (O.seen out.old) (O.seen out.new) result) }
    ensures refuses { IfSome (command_of (map string_bytes words.now)) (λ command.
        RefusesThere command (F.seen files.old) (F.seen files.new) result) }

    // A demo reads no file: what it says holds whatever is known of them.
    ensures demo { IfSome (command_of (map string_bytes words.now)) (λ command.
        AnswersDemo command (F.seen files.old) (F.seen files.new) (O.seen out.old) (O.seen out.new) result) }

    // Names and bytes stay as they were, and no count falls.
    ensures later { IsLater (F.seen files.old) (F.seen files.new) }

    // What is put to `err` where the words are of no command.
    ensures usage_line { result ≡ Outcome.Usage → Says usage (E.seen err.old) (E.seen err.new) }
{
    let ended = match read_command(words) {
        Some(command) => perform(alloc, command, files, out),
        None => Err(Stop::Usage),
    };
    tell(&ended, err);
    outcome_of(ended)
}

// A command, up to the line on the error output.
fn perform<'a, F: Files, O: Sink>(
    alloc: Global,
    command: Command<'a>,
    files: &mut F,
    out: &mut O,
) -> Ended<'a>
    requires { CanPerform command }
    ensures answers { Answers (as_asked command.entry) (F.seen files.old) (F.seen files.new) (O.seen out.old) (O.seen out.new) (answer_of result) }
    ensures own { KeepsOwn (F.seen files.old) (F.seen files.new) (answer_of result) }
    ensures later { IsLater (F.seen files.old) (F.seen files.new) }
    ensures demo { (outcome : AnyOutcome) → IsAnswer outcome (answer_of result)
        → AnswersDemo (as_asked command.entry) (F.seen files.old) (F.seen files.new) (O.seen out.old) (O.seen out.new) outcome }
{
    match command {
        Command::Flat { netlist } => write_flat(alloc, netlist, files, out),
        Command::Code { settings } => report_code(alloc, settings, files, out),
        Command::Guard { settings, netlist } => write_guard(alloc, settings, netlist, files, out),
        Command::Sim {
            netlist,
            stimulus,
            script,
        } => write_run(alloc, netlist, stimulus, script, files, out),
        Command::Audit { netlist } => write_audit(alloc, netlist, files, out),
        Command::Campaign {
            settings,
            netlist,
            stimulus,
            cycle,
        } => write_campaign(alloc, settings, netlist, stimulus, cycle, files, out),
        Command::Demo { size } => write_demo(alloc, size, out),
    }
}
