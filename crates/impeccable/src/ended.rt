// How a command ends.
ghost use Rattle.impeccable.specs.Ended.{answer_of};
ghost use Rattle.impeccable.specs.Outcome.{IsAnswer};

use crate::{Outcome, Refusal};
use blif_read::BlifFault;
use blif_write::WriteRefusal;
use elaborate::ElabFault;
use encode_state::LayoutFault;
use fault_script::ScriptFault;
use guard_source::GuardFault;
use imp_io::SinkFault;
use line_order::OrderFault;
use settings::{SetFault, TooSmall};
use sim_text::StimFault;
use std::alloc::AllocError;

/// How a command ends that wrote its whole text.
#[derive(Clone, Copy, Debug)]
pub(crate) enum Success {
    Done,
    Found,
}

/// Why a command stopped, with the name of the file whose load failed.
#[derive(Drop)]
pub(crate) enum Stop<'a> {
    Usage,
    Refused(Refusal),
    ReadFault(&'a str),
    WriteFault,
    NoMemory,
}

/// How a command ends. Its steps are joined by `?`.
pub(crate) type Ended<'a> = Result<Success, Stop<'a>>;

/// The same without the name.
pub(crate) fn outcome_of(ended: Ended<'_>) -> Outcome
    ensures { IsAnswer result (answer_of ended.entry) }
{
    match ended {
        Ok(Success::Done) => Outcome::Done,
        Ok(Success::Found) => Outcome::Found,
        Err(Stop::Usage) => Outcome::Usage,
        Err(Stop::Refused(refusal)) => Outcome::Refused(refusal),
        Err(Stop::ReadFault(_)) => Outcome::ReadFault,
        Err(Stop::WriteFault) => Outcome::WriteFault,
        Err(Stop::NoMemory) => Outcome::NoMemory,
    }
}

impl<'a> From<AllocError> for Stop<'a> {
    ghost use Rattle.std.specs.Prelude.{◌≡◌};
    ghost use Rattle.program_spec.specs.ErrorLines.{no_memory};
    ghost use Rattle.impeccable.specs.Ended.{stop_answer};

    ghost from_gives = { λ _ stop. stop_answer stop ≡ no_memory };

    fn from(_: AllocError) -> Self {
        Stop::NoMemory
    }
}

impl<'a> From<SinkFault> for Stop<'a> {
    ghost use Rattle.std.specs.Prelude.{◌≡◌};
    ghost use Rattle.impeccable.specs.Ended.{sink_answer, stop_answer};

    ghost from_gives = { λ fault stop. stop_answer stop ≡ sink_answer fault };

    fn from(fault: SinkFault) -> Self {
        match fault {
            SinkFault::Failed => Stop::WriteFault,
            SinkFault::NoMemory => Stop::NoMemory,
        }
    }
}

impl<'a> From<WriteRefusal> for Stop<'a> {
    ghost use Rattle.std.specs.Prelude.{◌≡◌};
    ghost use Rattle.impeccable.specs.Ended.{stop_answer, write_answer};

    ghost from_gives = { λ fault stop. stop_answer stop ≡ write_answer fault };

    fn from(fault: WriteRefusal) -> Self {
        match fault {
            WriteRefusal::Fault => Stop::WriteFault,
            WriteRefusal::NoMemory => Stop::NoMemory,
        }
    }
}

impl<'a> From<BlifFault> for Stop<'a> {
    ghost use Rattle.std.specs.Prelude.{◌≡◌};
    ghost use Rattle.blif_read.specs.Faults.{fault_of};
    ghost use Rattle.netlist_spec.specs.ReadFaults.{ReadFault};
    ghost use Rattle.program_spec.specs.Refusals.{unreadable};
    ghost use Rattle.impeccable.specs.Ended.{fault_answer, stop_answer};

    ghost from_gives = { λ fault stop. stop_answer stop ≡ fault_answer ReadFault unreadable (fault_of fault) };

    fn from(fault: BlifFault) -> Self {
        match fault {
            BlifFault::UnknownStatement(line, word) => Stop::Refused(Refusal::UnknownStatement(
                line, word,
            )),
            BlifFault::BadRow(line) => Stop::Refused(Refusal::BadRow(line)),
            BlifFault::MixedCover(line) => Stop::Refused(Refusal::MixedCover(line)),
            BlifFault::BadLatch(line) => Stop::Refused(Refusal::BadLatch(line)),
            BlifFault::NoModel(line) => Stop::Refused(Refusal::NoModel(line)),
            BlifFault::LongName(line) => Stop::Refused(Refusal::LongName(line)),
            BlifFault::TooMany(line, what) => Stop::Refused(Refusal::TooMany(line, what)),
            BlifFault::TwiceModel(line, name) => Stop::Refused(Refusal::TwiceModel(line, name)),
            BlifFault::BadSubckt(line) => Stop::Refused(Refusal::BadSubckt(line)),
            BlifFault::AfterEnd(line) => Stop::Refused(Refusal::AfterEnd(line)),
            BlifFault::WordCount(line) => Stop::Refused(Refusal::WordCount(line)),
            BlifFault::NoMemory => Stop::NoMemory,
        }
    }
}

impl<'a> From<SetFault> for Stop<'a> {
    ghost use Rattle.std.specs.Prelude.{◌≡◌};
    ghost use Rattle.settings.specs.Faults.{fault_of};
    ghost use Rattle.guard_spec.specs.SettingsFile.{SettingsFault};
    ghost use Rattle.program_spec.specs.Refusals.{bad_settings};
    ghost use Rattle.impeccable.specs.Ended.{fault_answer, stop_answer};

    ghost from_gives = { λ fault stop. stop_answer stop ≡ fault_answer SettingsFault bad_settings (fault_of fault) };

    fn from(fault: SetFault) -> Self {
        match fault {
            SetFault::NotToml => Stop::Refused(Refusal::NotToml),
            SetFault::Missing(key) => Stop::Refused(Refusal::Missing(key)),
            SetFault::BadValue(key) => Stop::Refused(Refusal::BadValue(key)),
            SetFault::UnknownKey(key) => Stop::Refused(Refusal::UnknownKey(key)),
            SetFault::BadShape => Stop::Refused(Refusal::BadShape),
            SetFault::NoMemory => Stop::NoMemory,
        }
    }
}

impl<'a> From<ElabFault> for Stop<'a> {
    ghost use Rattle.std.specs.Prelude.{◌≡◌};
    ghost use Rattle.source_check.specs.Faults.{fault_of};
    ghost use Rattle.netlist_spec.specs.SoundFaults.{SoundFault};
    ghost use Rattle.program_spec.specs.Refusals.{unsound};
    ghost use Rattle.impeccable.specs.Ended.{fault_answer, stop_answer};

    ghost from_gives = { λ fault stop. stop_answer stop ≡ fault_answer SoundFault unsound (fault_of fault) };

    fn from(fault: ElabFault) -> Self {
        match fault {
            ElabFault::Twice(net) => Stop::Refused(Refusal::Twice(net)),
            ElabFault::NoSuchModel(name) => Stop::Refused(Refusal::NoSuchModel(name)),
            ElabFault::BadPort(model, formal) => Stop::Refused(Refusal::BadPort(model, formal)),
            ElabFault::Recursion(model) => Stop::Refused(Refusal::Recursion(model)),
            ElabFault::LatchInside(model) => Stop::Refused(Refusal::LatchInside(model)),
            ElabFault::Depth(model) => Stop::Refused(Refusal::Depth(model)),
            ElabFault::Undriven(net) => Stop::Refused(Refusal::Undriven(net)),
            ElabFault::Clocking(net) => Stop::Refused(Refusal::Clocking(net)),
            ElabFault::Loop(nets) => Stop::Refused(Refusal::Loop(nets)),
            ElabFault::Reserved(name) => Stop::Refused(Refusal::Reserved(name)),
            ElabFault::TooLarge(what) => Stop::Refused(Refusal::TooLarge(what)),
            ElabFault::NoMemory => Stop::NoMemory,
        }
    }
}

impl<'a> From<TooSmall> for Stop<'a> {
    ghost use Rattle.std.specs.Prelude.{◌≡◌};
    ghost use Rattle.program_spec.specs.ErrorLines.{refused};
    ghost use Rattle.program_spec.specs.Refusals.{too_small};
    ghost use Rattle.impeccable.specs.Ended.{stop_answer};

    ghost from_gives = { λ fault stop. stop_answer stop ≡ refused (too_small fault.d fault.need) };

    fn from(fault: TooSmall) -> Self {
        Stop::Refused(Refusal::TooSmall {
            d: fault.d,
            need: fault.need,
        })
    }
}

impl<'a> From<LayoutFault> for Stop<'a> {
    ghost use Rattle.std.specs.Prelude.{◌≡◌};
    ghost use Rattle.encode_state.specs.Faults.{fault_of};
    ghost use Rattle.guard_spec.specs.Words.{LayoutFault as SpecFault};
    ghost use Rattle.program_spec.specs.Refusals.{bad_layout};
    ghost use Rattle.impeccable.specs.Ended.{fault_answer, stop_answer};

    ghost from_gives = { λ fault stop. stop_answer stop ≡ fault_answer SpecFault bad_layout (fault_of fault) };

    fn from(fault: LayoutFault) -> Self {
        match fault {
            LayoutFault::NoSuchNet(name) => Stop::Refused(Refusal::NoSuchNet(name)),
            LayoutFault::InTwoWords(name) => Stop::Refused(Refusal::InTwoWords(name)),
            LayoutFault::NotInAWord(name) => Stop::Refused(Refusal::NotInAWord(name)),
            LayoutFault::NoMemory => Stop::NoMemory,
        }
    }
}

impl<'a> From<GuardFault> for Stop<'a> {
    ghost use Rattle.std.specs.Prelude.{◌≡◌};
    ghost use Rattle.guard_source.specs.Accepted.{GuardRefusal};
    ghost use Rattle.guard_source.specs.Faults.{refusal_of as guard_refusal_of};
    ghost use Rattle.impeccable.specs.Ended.{fault_answer, stop_answer};
    ghost use Rattle.impeccable.specs.Guard.{guard_told};

    ghost from_gives = { λ fault stop. stop_answer stop ≡ fault_answer GuardRefusal guard_told (guard_refusal_of fault) };

    fn from(fault: GuardFault) -> Self {
        match fault {
            GuardFault::Elab(fault) => Stop::from(fault),
            GuardFault::Words(fault) => Stop::from(fault),
            GuardFault::TooLarge => Stop::Refused(Refusal::GuardTooLarge),
            GuardFault::NoMemory => Stop::NoMemory,
        }
    }
}

impl<'a> From<OrderFault> for Stop<'a> {
    ghost use Rattle.std.specs.Prelude.{◌≡◌};
    ghost use Rattle.line_order.specs.Faults.{fault_of};
    ghost use Rattle.netlist_spec.specs.Ordered.{OrderFault as SpecFault};
    ghost use Rattle.program_spec.specs.Refusals.{out_of_order};
    ghost use Rattle.impeccable.specs.Ended.{fault_answer, stop_answer};

    ghost from_gives = { λ fault stop. stop_answer stop ≡ fault_answer SpecFault out_of_order (fault_of fault) };

    fn from(fault: OrderFault) -> Self {
        match fault {
            OrderFault::Unordered(line) => Stop::Refused(Refusal::Unordered(line)),
            OrderFault::HasSubckt(line) => Stop::Refused(Refusal::HasSubckt(line)),
            OrderFault::NoMemory => Stop::NoMemory,
        }
    }
}

impl<'a> From<StimFault> for Stop<'a> {
    ghost use Rattle.std.specs.Prelude.{◌≡◌, ℕ};
    ghost use Rattle.sim_text.specs.Faults.{fault_of};
    ghost use Rattle.program_spec.specs.Refusals.{bad_stimulus};
    ghost use Rattle.impeccable.specs.Ended.{fault_answer, stop_answer};

    ghost from_gives = { λ fault stop. stop_answer stop ≡ fault_answer ℕ bad_stimulus (fault_of fault) };

    fn from(fault: StimFault) -> Self {
        match fault {
            StimFault::BadStimulus(line) => Stop::Refused(Refusal::BadStimulus(line)),
            StimFault::NoMemory => Stop::NoMemory,
        }
    }
}

impl<'a> From<ScriptFault> for Stop<'a> {
    ghost use Rattle.std.specs.Prelude.{◌≡◌};
    ghost use Rattle.fault_script.specs.Faults.{fault_of};
    ghost use Rattle.stimulus_spec.specs.Stimulus.{ScriptFault as SaidFault};
    ghost use Rattle.program_spec.specs.Refusals.{bad_script_line};
    ghost use Rattle.impeccable.specs.Ended.{fault_answer, stop_answer};

    ghost from_gives = { λ fault stop. stop_answer stop ≡ fault_answer SaidFault bad_script_line (fault_of fault) };

    fn from(fault: ScriptFault) -> Self {
        match fault {
            ScriptFault::BadScript(line) => Stop::Refused(Refusal::BadScript(line)),
            ScriptFault::NoSuchCell(line) => Stop::Refused(Refusal::NoSuchCell(line)),
            ScriptFault::MoreThanSixteen(line) => Stop::Refused(Refusal::MoreThanSixteen(line)),
            ScriptFault::NoMemory => Stop::NoMemory,
        }
    }
}
