// What the words of one line say, with its names numbered.
ghost use Rattle.std.specs.Prelude.{◌≡◌, ◌+◌, ◌^◌, ◌<◌, ◌≤◌, List, ◌++◌, length, map, drop, Some, slice_get, option_to_list, All, IfOk, IfSome, OnOk};
ghost use Rattle.std.specs.List.{AllByRecursion};
ghost use Rattle.netlist_spec.specs.Netlist.{Name as Bytes, IsName};
ghost use Rattle.netlist_spec.specs.Statements.{IsBind, IsClocking, IsStatement, Says, clocking_words, init_words, spelling};
ghost use Rattle.netlist_spec.specs.Reads.{control_nets};
ghost use Rattle.netlist_spec.specs.ReadFaults.{actual_part, formal_part};
ghost use Rattle.netlist_spec.specs.Said.{latch_said, said_of, subckt_said, word_bind, word_control};
ghost use Rattle.imp_text.specs.Names.{with_name};
ghost use Rattle.blif_read.specs.Ids.{IsIdOf, control_ids};
ghost use Rattle.blif_read.specs.LineTests.{words_in, line_of, IsLine};
ghost use Rattle.blif_read.specs.Spelled.{AddsPorts, AreBinds, AreNumbers, SpellsSome, clocking_said, init_said, names_said, nets_of, statement_said, with_names};
ghost use Rattle.blif_read.specs.View.{clocking_of};

use crate::kind::Kind;
use crate::line::Line;
use crate::words::split_port;
use crate::{Bind, Clocking, Cover, Name, NameId, Names, Port, Statement};
use std::alloc::{AllocError, Global};

// The numbers of some names, each of which goes last where it is new.
pub(crate) fn intern_all(
    alloc: Global,
    words: &[&[u8]],
    names: &mut Names,
) -> Result<Vec<NameId>, AllocError>
    requires words { AllByRecursion IsName (words_in words.now) }
    requires room { length names.old + length words.now ≤ 2 ^ 31 }
    ensures names { OnOk result (names.new ≡ with_names names.old (words_in words.now)) }
    ensures ids { IfOk result (λ ids. AreNumbers names.new ids.items (words_in words.now)) }
{
    let mut ids = Vec::new(alloc);
    for word in words {
        let id = names.intern(word)?;
        ids.push(id)?;
    }
    Ok(ids)
}

// Adds the ports of a line that declares some.
pub(crate) fn add_ports(
    line: &Line,
    names: &mut Names,
    ports: &mut Vec<Port>,
) -> Result<(), AllocError>
    requires line { IsLine line.now }
    requires words { AllByRecursion IsName (drop 1 (words_in line.now.words.now)) }
    requires room { length names.old + length line.now.words.now ≤ 2 ^ 31 }
    ensures names { OnOk result (names.new ≡ with_names names.old (drop 1 (words_in line.now.words.now))) }
    ensures ports { OnOk result (AddsPorts names.new line.now.number (drop 1 (words_in line.now.words.now)) ports.old.items ports.new.items) }
{
    for word in &line.words[1..] {
        let name = names.intern(word)?;
        ports.push(Port {
            name,
            line: line.number,
        })?;
    }
    Ok(())
}

// The inputs and the output of a `.names`. Its rows come on later lines.
fn read_names(alloc: Global, words: &[&[u8]], names: &mut Names) -> Result<Statement, AllocError>
    requires says { IsStatement (names_said (words_in words.now)) }
    requires room { length names.old + length words.now ≤ 2 ^ 31 }
    ensures names { OnOk result (names.new ≡ with_names names.old (nets_of (statement_said (names_said (words_in words.now))))) }
    ensures statement { IfOk result (λ s. SpellsSome names.new (Some s) (statement_said (names_said (words_in words.now)))) }
{
    let last = words.len() - 1;
    let ins = intern_all(alloc, &words[..last], names)?;
    let out = names.intern(words[last])?;
    Ok(Statement::Names {
        ins,
        out,
        cover: Cover {
            on: true,
            rows: Vec::new(alloc),
        },
    })
}

// A control `NIL` is none.
fn read_control(word: &[u8], names: &mut Names) -> Result<Option<NameId>, AllocError>
    requires control { IfSome (word_control word.now) IsName }
    requires room { length names.old < 2 ^ 31 }
    ensures names { OnOk result (names.new ≡ with_names names.old (option_to_list (word_control word.now))) }
    ensures control { IfOk result (λ id. AreNumbers names.new (option_to_list id) (option_to_list (word_control word.now))) }
{
    if word == b"NIL".as_slice() {
        return Ok(None);
    }
    Ok(Some(names.intern(word)?))
}

// The edge and the control, by the words behind D and Q.
fn read_clocking(words: &[&[u8]], names: &mut Names) -> Result<Clocking, AllocError>
    requires clocking { IsClocking (clocking_said (words_in words.now)) }
    requires room { length names.old < 2 ^ 31 }
    ensures names { OnOk result (names.new ≡ with_names names.old (control_nets (clocking_said (words_in words.now)))) }
    ensures same { IfOk result (λ c. (more : List Bytes) → clocking_of (names.new ++ more) c ≡ clocking_said (words_in words.now)) }
    ensures within { IfOk result (λ c. All (IsIdOf names.new) (control_ids c)) }
{
    match words {
        [edge, control, ..] => Ok(Clocking::Edge {
            rising: *edge == b"re".as_slice(),
            control: read_control(control, names)?,
        }),
        _ => Ok(Clocking::Plain),
    }
}

// The init, by the words behind D and Q.
fn read_init(words: &[&[u8]]) -> Option<u8>
    requires { words_in words.now ≡ clocking_words (clocking_said (words_in words.now)) ++ init_words (init_said (words_in words.now)) }
    ensures { result ≡ init_said (words_in words.now) }
{
    match words {
        [init] | [_, _, init] => Some(init[0] - b'0'),
        _ => None,
    }
}

fn read_latch(words: &[&[u8]], names: &mut Names) -> Result<Statement, AllocError>
    requires two { 2 ≤ length words.now }
    requires words { words_in words.now ≡ drop 1 (spelling (latch_said (words_in words.now))) }
    requires says { IsStatement (latch_said (words_in words.now)) }
    requires room { length names.old + length words.now < 2 ^ 31 }
    ensures names { OnOk result (names.new ≡ with_names names.old (nets_of (statement_said (latch_said (words_in words.now))))) }
    ensures statement { IfOk result (λ s. SpellsSome names.new (Some s) (statement_said (latch_said (words_in words.now)))) }
{
    let d = names.intern(words[0])?;
    let q = names.intern(words[1])?;
    let clocking = read_clocking(&words[2..], names)?;
    let init = read_init(&words[2..]);
    Ok(Statement::Latch {
        d,
        q,
        clocking,
        init,
    })
}

// A port word is cut at its first `=`.
fn read_bind(alloc: Global, port: &[u8], names: &mut Names) -> Result<Bind, AllocError>
    requires bind { IsBind (word_bind port.now) }
    requires room { length names.old < 2 ^ 31 }
    ensures names { OnOk result (names.new ≡ with_name names.old (actual_part port.now)) }
    ensures formal { IfOk result (λ bind. bind.formal ≡ formal_part port.now) }
    ensures actual { IfOk result (λ bind. slice_get names.new bind.actual.0 ≡ Some (actual_part port.now)) }
{
    let (formal, actual) = split_port(port).unwrap();
    let formal = Name::new(alloc, formal)?;
    let actual = names.intern(actual)?;
    Ok(Bind { formal, actual })
}

fn read_binds(alloc: Global, ports: &[&[u8]], names: &mut Names) -> Result<Vec<Bind>, AllocError>
    requires binds { AllByRecursion IsBind (map word_bind (words_in ports.now)) }
    requires room { length names.old + length ports.now ≤ 2 ^ 31 }
    ensures names { OnOk result (names.new ≡ with_names names.old (map actual_part (words_in ports.now))) }
    ensures binds { IfOk result (λ binds. AreBinds names.new binds.items (map word_bind (words_in ports.now))) }
{
    let mut binds = Vec::new(alloc);
    for port in ports {
        let bind = read_bind(alloc, port, names)?;
        binds.push(bind)?;
    }
    Ok(binds)
}

fn read_subckt(alloc: Global, words: &[&[u8]], names: &mut Names) -> Result<Statement, AllocError>
    requires some { 0 < length words.now }
    requires says { IsStatement (subckt_said (words_in words.now)) }
    requires room { length names.old + length words.now ≤ 2 ^ 31 }
    ensures names { OnOk result (names.new ≡ with_names names.old (nets_of (statement_said (subckt_said (words_in words.now))))) }
    ensures statement { IfOk result (λ s. SpellsSome names.new (Some s) (statement_said (subckt_said (words_in words.now)))) }
{
    let model = Name::new(alloc, words[0])?;
    let binds = read_binds(alloc, &words[1..], names)?;
    Ok(Statement::Subckt { model, binds })
}

// The statement that a line says, if it says one.
pub(crate) fn read_statement(
    alloc: Global,
    line: &Line,
    names: &mut Names,
) -> Result<Option<Statement>, AllocError>
    requires line { IsLine line.now }
    requires says { Says (line_of line.now) (said_of (line_of line.now)) }
    requires room { length names.old + length line.now.words.now ≤ 2 ^ 31 }
    ensures names { OnOk result (names.new ≡ with_names names.old (nets_of (statement_said (said_of (line_of line.now))))) }
    ensures statement { IfOk result (λ s. SpellsSome names.new s (statement_said (said_of (line_of line.now)))) }
{
    let words = &line.words[1..];
    match line.kind {
        Kind::Names => Ok(Some(read_names(alloc, words, names)?)),
        Kind::Latch => Ok(Some(read_latch(words, names)?)),
        Kind::Subckt => Ok(Some(read_subckt(alloc, words, names)?)),
        Kind::Model
        | Kind::Inputs
        | Kind::Outputs
        | Kind::Clock
        | Kind::End
        | Kind::Other
        | Kind::Row => Ok(None),
    }
}
