// What the tests of a line ask of the lines before it.
ghost use Rattle.std.specs.Prelude.{◌≡◌, [], ◌^◌, ◌<◌, ◌≤◌, ◌==◌, ◌&&◌, false, length, not, option_map, None, OnOk, IfOk, IfErr};
ghost use Rattle.netlist_spec.specs.Lines.{Line as LineOf};
ghost use Rattle.netlist_spec.specs.Netlist.{stands_in};
ghost use Rattle.netlist_spec.specs.ReadFaults.{kind_index, model_kind, row_kind, arguments, last_word, is_row_of_open};
ghost use Rattle.imp_text.specs.Quantities.{quantity_of};
ghost use Rattle.blif_read.specs.Faults.{fault_of, IsFault};
ghost use Rattle.blif_read.specs.Kinds.{kind_in};
ghost use Rattle.blif_read.specs.LineTests.{words_in, is_wrong_count, any_long, line_of, IsLine};
ghost use Rattle.blif_read.specs.Summaries.{order_fault, words_fault, row_fault, model_fault, count_fault_by, fault_by, differs_from, passed_by, room_after, open_after, last_after, models_after, IsAfter};

use crate::kind::Kind;
use crate::line::Line;
use crate::words::{has_bad_port, has_long_name, is_latch, is_row, is_wrong_count};
use crate::{BlifFault, Name, Names, Text};
use imp_text::What;
use std::alloc::{AllocError, Global};

const MOST_COVER_INPUTS: usize = 16;

const MOST_IN_MODEL: usize = 131_072;

const MOST_STATEMENTS: usize = 2_000_000;

// How many more names and latches the model may have, and how many more statements the file.
#[derive(Clone, Copy, Debug)]
struct Room {
    inputs: usize,
    outputs: usize,
    clocks: usize,
    latches: usize,
    statements: usize,
}

// What is known of the lines before.
#[derive(Drop)]
pub(crate) struct Summary {
    // the line before is `.end`
    ended: bool,
    has_model: bool,
    // the number of inputs of the cover that is open, and the last character of its rows
    open_inputs: Option<usize>,
    shared_last: Option<bool>,
    models: Names,
    room: Room,
}

fn is_model(kind: Kind) -> bool
    ensures { result ≡ (kind_index (kind_in kind) == 0) }
{
    matches!(kind, Kind::Model)
}

fn is_row_kind(kind: Kind) -> bool
    ensures { result ≡ (kind_index (kind_in kind) == 9) }
{
    matches!(kind, Kind::Row)
}

impl Room {
    // The first count that a line with so many words behind the first would bring past its number.
    fn passed(&self, kind: Kind, count: usize) -> Option<What>
        ensures { option_map quantity_of result ≡ passed_by self.now (kind_in kind) count }
    {
        let passed = match kind {
            Kind::Names if count > MOST_COVER_INPUTS + 1 => Some(What::Cover),
            Kind::Inputs => (count > self.inputs).then_some(What::Inputs),
            Kind::Outputs => (count > self.outputs).then_some(What::Outputs),
            Kind::Clock => (count > self.clocks).then_some(What::Clocks),
            Kind::Latch if self.latches == 0 => Some(What::Latches),
            Kind::Names | Kind::Latch | Kind::Subckt => {
                (self.statements == 0).then_some(What::Statements)
            }
            Kind::Model | Kind::End | Kind::Other | Kind::Row => None,
        };
        passed
    }

    fn after(&self, kind: Kind, count: usize) -> Room
        ensures { result ≡ room_after self.now (kind_in kind) count }
    {
        match kind {
            Kind::Model => Room {
                inputs: MOST_IN_MODEL,
                outputs: MOST_IN_MODEL,
                clocks: MOST_IN_MODEL,
                latches: MOST_IN_MODEL,
                statements: self.statements,
            },
            Kind::Inputs => Room {
                inputs: self.inputs.saturating_sub(count),
                ..*self
            },
            Kind::Outputs => Room {
                outputs: self.outputs.saturating_sub(count),
                ..*self
            },
            Kind::Clock => Room {
                clocks: self.clocks.saturating_sub(count),
                ..*self
            },
            Kind::Latch => Room {
                latches: self.latches.saturating_sub(1),
                statements: self.statements.saturating_sub(1),
                ..*self
            },
            Kind::Names | Kind::Subckt => Room {
                statements: self.statements.saturating_sub(1),
                ..*self
            },
            Kind::End | Kind::Other | Kind::Row => *self,
        }
    }
}

// What a `.names` of a text so far is open after a line.
fn open_after(kind: Kind, count: usize, before: Option<usize>) -> Option<usize>
    ensures { result ≡ open_after (kind_in kind) count before }
{
    match kind {
        Kind::Names => Some(count.saturating_sub(1)),
        Kind::Row => before,
        Kind::Model
        | Kind::Inputs
        | Kind::Outputs
        | Kind::Clock
        | Kind::Latch
        | Kind::Subckt
        | Kind::End
        | Kind::Other => None,
    }
}

fn last_after(kind: Kind, word: &[u8], last: Option<bool>) -> Option<bool>
    ensures { result ≡ last_after (kind_in kind) word.now last }
{
    if !is_row_kind(kind) {
        return None;
    }
    match last {
        Some(last) => Some(last),
        None => Some(word == b"1".as_slice()),
    }
}

fn differs(last: Option<bool>, word: &[u8]) -> bool
    ensures { result ≡ differs_from last word.now }
{
    match last {
        Some(true) => word != b"1".as_slice(),
        Some(false) => word != b"0".as_slice(),
        None => false,
    }
}

fn is_row_of_open(inputs: Option<usize>, words: &[&[u8]]) -> bool
    ensures { result ≡ is_row_of_open inputs (words_in words.now) }
{
    match inputs {
        Some(inputs) => is_row(inputs, words),
        None => false,
    }
}

// The tests of the words themselves.
fn check_words(line: &Line) -> Result<(), BlifFault>
    requires { IsLine line.now }
    ensures ok { OnOk result (words_fault (kind_in line.now.kind) (line_of line.now) ≡ None) }
    ensures err { IfErr result (λ fault. IsFault (words_fault (kind_in line.now.kind) (line_of line.now)) (fault_of fault)) }
{
    let words = &line.words[1..];
    if has_long_name(line.kind, words) {
        return Err(BlifFault::LongName(line.number));
    }
    if matches!(line.kind, Kind::Subckt) && has_bad_port(words) {
        return Err(BlifFault::BadSubckt(line.number));
    }
    if matches!(line.kind, Kind::Latch) && !is_latch(words) {
        return Err(BlifFault::BadLatch(line.number));
    }
    Ok(())
}

impl Summary {
    // Before the first line.
    pub(crate) fn new(alloc: Global) -> Summary
        ensures ended { result.ended ≡ false }
        ensures has_model { result.has_model ≡ false }
        ensures open_inputs { result.open_inputs ≡ None }
        ensures shared_last { result.shared_last ≡ None }
        ensures models { result.models ≡ [] }
        ensures room { result.room ≡ record { inputs = 131072; outputs = 131072; clocks = 131072; latches = 131072; statements = 2000000 } }
    {
        Summary {
            ended: false,
            has_model: false,
            open_inputs: None,
            shared_last: None,
            models: Names::new(alloc),
            room: Room {
                inputs: MOST_IN_MODEL,
                outputs: MOST_IN_MODEL,
                clocks: MOST_IN_MODEL,
                latches: MOST_IN_MODEL,
                statements: MOST_STATEMENTS,
            },
        }
    }

    pub(crate) fn has_model(&self) -> bool
        ensures { result ≡ self.now.has_model }
    {
        self.has_model
    }

    // The tests of the first word, of where the line stands, and of its number of words.
    fn check_order(&self, alloc: Global, line: &Line) -> Result<(), BlifFault>
        requires { IsLine line.now }
        ensures ok { OnOk result (order_fault self.now (kind_in line.now.kind) (line_of line.now) ≡ None) }
        ensures err { IfErr result (λ fault. IsFault (order_fault self.now (kind_in line.now.kind) (line_of line.now)) (fault_of fault)) }
    {
        if self.ended && !is_model(line.kind) {
            return Err(BlifFault::AfterEnd(line.number));
        }
        if !self.has_model && !is_model(line.kind) {
            return Err(BlifFault::NoModel(line.number));
        }
        if matches!(line.kind, Kind::Other) {
            let word = Text::new(alloc, line.words[0])?;
            return Err(BlifFault::UnknownStatement(line.number, word));
        }
        if is_wrong_count(line.kind, line.words.len() - 1) {
            return Err(BlifFault::WordCount(line.number));
        }
        Ok(())
    }

    fn check_row(&self, line: &Line) -> Result<(), BlifFault>
        requires { IsLine line.now }
        ensures ok { OnOk result (row_fault self.now (kind_in line.now.kind) (line_of line.now) ≡ None) }
        ensures err { IfErr result (λ fault. IsFault (row_fault self.now (kind_in line.now.kind) (line_of line.now)) (fault_of fault)) }
    {
        if !is_row_kind(line.kind) {
            return Ok(());
        }
        if !is_row_of_open(self.open_inputs, line.words) {
            return Err(BlifFault::BadRow(line.number));
        }
        if differs(self.shared_last, line.words[line.words.len() - 1]) {
            return Err(BlifFault::MixedCover(line.number));
        }
        Ok(())
    }

    fn has_named(&self, name: &[u8]) -> bool
        ensures { result ≡ stands_in name.now self.now.models }
    {
        self.models.find(name).is_some()
    }

    // Whether the line is a `.model` whose name an earlier one has.
    fn check_model(&self, alloc: Global, line: &Line) -> Result<(), BlifFault>
        requires line { IsLine line.now }
        requires order { order_fault self.now (kind_in line.now.kind) (line_of line.now) ≡ None }
        requires words { words_fault (kind_in line.now.kind) (line_of line.now) ≡ None }
        ensures ok { OnOk result (model_fault self.now (kind_in line.now.kind) (line_of line.now) ≡ None) }
        ensures err { IfErr result (λ fault. IsFault (model_fault self.now (kind_in line.now.kind) (line_of line.now)) (fault_of fault)) }
    {
        if is_model(line.kind) && self.has_named(line.words[1]) {
            let name = Name::new(alloc, line.words[1])?;
            return Err(BlifFault::TwiceModel(line.number, name));
        }
        Ok(())
    }

    // The first test that the line fails.
    pub(crate) fn check(&self, alloc: Global, line: &Line) -> Result<(), BlifFault>
        requires { IsLine line.now }
        ensures ok { OnOk result (fault_by self.now (kind_in line.now.kind) (line_of line.now) ≡ None) }
        ensures err { IfErr result (λ fault. IsFault (fault_by self.now (kind_in line.now.kind) (line_of line.now)) (fault_of fault)) }
    {
        self.check_order(alloc, line)?;
        check_words(line)?;
        self.check_row(line)?;
        self.check_model(alloc, line)?;
        match self.room.passed(line.kind, line.words.len() - 1) {
            Some(what) => Err(BlifFault::TooMany(line.number, what)),
            None => Ok(()),
        }
    }

    // Adds a line that passes the tests.
    pub(crate) fn add(&mut self, line: &Line) -> Result<(), AllocError>
        requires line { IsLine line.now }
        requires passes { fault_by self.old (kind_in line.now.kind) (line_of line.now) ≡ None }
        requires room { length self.old.models < 2 ^ 31 }
        ensures { OnOk result (IsAfter self.old (kind_in line.now.kind) (line_of line.now) self.new) }
    {
        let count = line.words.len() - 1;
        let last = line.words[count];
        self.ended = matches!(line.kind, Kind::End);
        self.open_inputs = open_after(line.kind, count, self.open_inputs);
        self.shared_last = last_after(line.kind, last, self.shared_last);
        self.room = self.room.after(line.kind, count);
        if is_model(line.kind) {
            self.has_model = true;
            self.models.intern(line.words[1])?;
        }
        Ok(())
    }
}
