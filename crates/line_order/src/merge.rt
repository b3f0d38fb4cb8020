// The lines of a model, one after the other.
ghost use Rattle.std.specs.Prelude.{◌≡◌, ◌<◌, ◌≤◌, ◌∷◌, [], length, map, slice_index_or, IfNone, IfSome};
ghost use Rattle.blif_read.specs.declared.file.Port.{Port as ReadPort};
ghost use Rattle.blif_read.specs.declared.file.Located.{Located as ReadLocated};
ghost use Rattle.blif_read.specs.View.{model_of};
ghost use Rattle.line_order.specs.Merge.{AreByLine, IsPlace, item_at, items_left};

use blif_read::{Located, Model, Port};

/// A declaration of a model, by its place in its list.
#[derive(Clone, Copy, Debug)]
pub enum Place {
    Input(usize),
    Output(usize),
    Clock(usize),
    Statement(usize),
}

/// How many declarations of each list have been gone through.
#[derive(Clone, Copy, Debug)]
pub struct Passed {
    pub inputs: usize,
    pub outputs: usize,
    pub clocks: usize,
    pub statements: usize,
}

// Behind each line.
const NO_LINE: u64 = 1 << 32;

// The line of the port at that place, and `NO_LINE` behind the last one.
fn port_line(ports: &[Port], place: usize) -> u64
    ensures line { result ≡ slice_index_or (map (λ (p : ReadPort). p.line) ports.now) place 4294967296 }
    ensures most { result ≤ 4294967296 }
    ensures some { result < 4294967296 → place < length ports.now }
    ensures none { result ≡ 4294967296 → length ports.now ≤ place }
{
    if place < ports.len() {
        u64::from(ports[place].line)
    } else {
        NO_LINE
    }
}

fn statement_line(statements: &[Located], place: usize) -> u64
    ensures line { result ≡ slice_index_or (map (λ (s : ReadLocated). s.line) statements.now) place 4294967296 }
    ensures most { result ≤ 4294967296 }
    ensures some { result < 4294967296 → place < length statements.now }
    ensures none { result ≡ 4294967296 → length statements.now ≤ place }
{
    if place < statements.len() {
        u64::from(statements[place].line)
    } else {
        NO_LINE
    }
}

/// The next declaration in file order, which is then passed.
pub fn next_place(m: &Model, passed: &mut Passed) -> Option<Place>
    requires by_line { AreByLine (model_of m.now) }
    ensures some { IfSome result (λ place. items_left (model_of m.now) passed.old ≡ item_at (model_of m.now) place ∷ items_left (model_of m.now) passed.new) }
    ensures place { IfSome result (λ place. IsPlace m.now place) }
    ensures none { IfNone result (items_left (model_of m.now) passed.old ≡ []) }
{
    let input = port_line(&m.inputs, passed.inputs);
    let output = port_line(&m.outputs, passed.outputs);
    let clock = port_line(&m.clocks, passed.clocks);
    let statement = statement_line(&m.statements, passed.statements);
    let least = input.min(output).min(clock).min(statement);
    if least == NO_LINE {
        return None;
    }
    if input == least {
        let place = passed.inputs;
        passed.inputs += 1;
        Some(Place::Input(place))
    } else if output == least {
        let place = passed.outputs;
        passed.outputs += 1;
        Some(Place::Output(place))
    } else if clock == least {
        let place = passed.clocks;
        passed.clocks += 1;
        Some(Place::Clock(place))
    } else {
        let place = passed.statements;
        passed.statements += 1;
        Some(Place::Statement(place))
    }
}
