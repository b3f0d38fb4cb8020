// Tests of the words of a line.
ghost use Rattle.std.specs.Prelude.{◌≡◌, ◌==◌, ◌≤◌, false, ◌||◌, ◌&&◌, length, map, drop, option_map, Some, None};
ghost use Rattle.std.specs.List.{list_all, list_any, flat_map, position};
ghost use Rattle.netlist_spec.specs.ReadFaults.{subckt_kind, is_bad_port_word, is_latch_form, is_edge_word, is_init_word, is_last_word, is_cells_word, is_row_of, latch_names, parts_of};
ghost use Rattle.blif_read.specs.Kinds.{kind_in};
ghost use Rattle.blif_read.specs.LineTests.{words_in, is_wrong_count, is_long as is_long_name, any_long, port_parts, parts_now, is_equals};

use crate::kind::Kind;

const LONGEST_NAME: usize = 255;

// Whether the number of words behind the first is wrong for the line.
pub(crate) fn is_wrong_count(kind: Kind, count: usize) -> bool
    ensures { result ≡ is_wrong_count (kind_in kind) count }
{
    match kind {
        Kind::Model => count != 1,
        Kind::Names | Kind::Subckt => count == 0,
        Kind::End => count != 0,
        Kind::Inputs | Kind::Outputs | Kind::Clock | Kind::Latch | Kind::Other | Kind::Row => false,
    }
}

fn is_long(name: &[u8]) -> bool
    ensures { result ≡ is_long_name name.now }
{
    name.len() > LONGEST_NAME
}

fn any_is_long(names: &[&[u8]]) -> bool
    ensures { result ≡ list_any (λ name. is_long_name name.now) names.now }
{
    names.iter().any(|name| is_long(name))
}

fn latch_has_long(words: &[&[u8]]) -> bool
    ensures { result ≡ list_any is_long_name (latch_names (words_in words.now)) }
{
    match words {
        [d, q, _, control] | [d, q, _, control, _] => is_long(d) || is_long(q) || is_long(control),
        [d, q, ..] => is_long(d) || is_long(q),
        [d] => is_long(d),
        [] => false,
    }
}

fn find_equals(word: &[u8]) -> Option<usize>
    ensures { result ≡ position is_equals word.now }
{
    word.iter().position(|b| *b == b'=')
}

// A port word cut at its first `=`.
pub(crate) fn split_port(word: &[u8]) -> Option<(&[u8], &[u8])>
    ensures { parts_now result ≡ port_parts word.now }
{
    let at = find_equals(word)?;
    Some((&word[..at], &word[at + 1..]))
}

fn has_long_part(port: &[u8]) -> bool
    ensures { result ≡ list_any is_long_name (parts_of port.now) }
{
    match split_port(port) {
        Some((formal, actual)) => is_long(formal) || is_long(actual),
        None => false,
    }
}

fn ports_have_long(ports: &[&[u8]]) -> bool
    ensures { result ≡ list_any (λ port. list_any is_long_name (parts_of port.now)) ports.now }
{
    ports.iter().any(|port| has_long_part(port))
}

fn subckt_has_long(words: &[&[u8]]) -> bool
    ensures { result ≡ any_long subckt_kind (words_in words.now) }
{
    match words {
        [] => false,
        [model, ports @ ..] => is_long(model) || ports_have_long(ports),
    }
}

// Whether a name of the line is too long, by the words behind the first.
pub(crate) fn has_long_name(kind: Kind, words: &[&[u8]]) -> bool
    ensures { result ≡ any_long (kind_in kind) (words_in words.now) }
{
    match kind {
        Kind::Model | Kind::Inputs | Kind::Outputs | Kind::Clock | Kind::Names => any_is_long(
            words,
        ),
        Kind::Latch => latch_has_long(words),
        Kind::Subckt => subckt_has_long(words),
        Kind::End | Kind::Other | Kind::Row => false,
    }
}

fn is_bad_port(port: &[u8]) -> bool
    ensures { result ≡ is_bad_port_word port.now }
{
    match split_port(port) {
        Some((formal, actual)) => formal.is_empty() || actual.is_empty(),
        None => true,
    }
}

fn any_is_bad_port(ports: &[&[u8]]) -> bool
    ensures { result ≡ list_any (λ port. is_bad_port_word port.now) ports.now }
{
    ports.iter().any(|port| is_bad_port(port))
}

// Whether a port word of `.subckt` has no `=`, or an empty part, by the words behind the first.
pub(crate) fn has_bad_port(words: &[&[u8]]) -> bool
    ensures { result ≡ list_any is_bad_port_word (drop 1 (words_in words.now)) }
{
    match words {
        [] => false,
        [_, ports @ ..] => any_is_bad_port(ports),
    }
}

fn is_edge(word: &[u8]) -> bool
    ensures { result ≡ is_edge_word word.now }
{
    word == b"re".as_slice() || word == b"fe".as_slice()
}

fn is_init(word: &[u8]) -> bool
    ensures { result ≡ is_init_word word.now }
{
    word == b"0".as_slice()
        || word == b"1".as_slice()
        || word == b"2".as_slice()
        || word == b"3".as_slice()
}

// Whether the words behind `.latch` have one of its forms.
pub(crate) fn is_latch(words: &[&[u8]]) -> bool
    ensures { result ≡ is_latch_form (words_in words.now) }
{
    match words {
        [_, _] => true,
        [_, _, init] => is_init(init),
        [_, _, edge, _] => is_edge(edge),
        [_, _, edge, _, init] => is_edge(edge) && is_init(init),
        _ => false,
    }
}

fn is_last(word: &[u8]) -> bool
    ensures { result ≡ is_last_word word.now }
{
    word == b"0".as_slice() || word == b"1".as_slice()
}

fn is_cell(c: u8) -> bool
    ensures { result ≡ ((c == 48) || (c == 49) || (c == 45)) }
{
    c == b'0' || c == b'1' || c == b'-'
}

fn are_cells(word: &[u8]) -> bool
    ensures { result ≡ list_all (λ c. (c == 48) || (c == 49) || (c == 45)) word.now }
{
    word.iter().all(|c| is_cell(*c))
}

fn is_cells(inputs: usize, word: &[u8]) -> bool
    ensures { result ≡ is_cells_word inputs word.now }
{
    word.len() == inputs && are_cells(word)
}

// Whether the words are a row of a cover with so many inputs.
pub(crate) fn is_row(inputs: usize, words: &[&[u8]]) -> bool
    ensures { result ≡ is_row_of inputs (words_in words.now) }
{
    match words {
        [last] => inputs == 0 && is_last(last),
        [cells, last] => 0 < inputs && is_cells(inputs, cells) && is_last(last),
        _ => false,
    }
}
