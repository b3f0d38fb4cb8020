ghost use Rattle.std.specs.Prelude.{map};
ghost use Rattle.std.specs.Cmp.Lexicographic.{slice_cmp};
ghost use Rattle.std.specs.List.Sorted.{IsStrictlySortedBy};
ghost use Rattle.std.specs.Ordering.{nat_cmp};

use linear_layer::{NamedLinear, find_in_byte_order};
use sbox_table::NamedTable;
use settings::{Mode, SetFault, TooSmall, read, strength};
use std::alloc::{AllocError, Global};
use std::test::Fail;

fn code_name(fault: &SetFault) -> &'static str {
    match fault {
        SetFault::NotToml => "S1",
        SetFault::Missing(_) => "S2",
        SetFault::BadValue(_) => "S3",
        SetFault::UnknownKey(_) => "S4",
        SetFault::BadShape => "C1",
        SetFault::NoMemory => "memory",
    }
}

fn key(fault: &SetFault) -> &[u8] {
    match fault {
        SetFault::Missing(key) => key.bytes(),
        SetFault::BadValue(key) => key.bytes(),
        SetFault::UnknownKey(key) => key.bytes(),
        _ => b"",
    }
}

// Each file has the fault that is named. Where there are two, the earlier key of the table wins.
#[test]
fn first_faults(rt: HostRuntime) -> Result<(), Fail> {
    let table: [(&[u8], &str, &str); 29] = [
        (b"mode =", "S1", ""),
        (
            b"mode = \"detect\"\nbound = 1\ncheck = [\"1\"]\n# \xff",
            "S1",
            "",
        ),
        (b"mode = \"detect\"\ncheck = [\"1\"]", "S2", "bound"),
        (b"mode = \"both\"\nbound = 1\ncheck = [\"1\"]", "S3", "mode"),
        (
            b"mode = \"detect\"\nbound = 0\ncheck = [\"1\"]",
            "S3",
            "bound",
        ),
        (
            b"mode = \"detect\"\nbound = 17\ncheck = [\"1\"]",
            "S3",
            "bound",
        ),
        (
            b"mode = \"detect\"\nbound = -1\ncheck = [\"1\"]",
            "S3",
            "bound",
        ),
        (
            b"mode = \"detect\"\nbound = 1.0\ncheck = [\"1\"]",
            "S3",
            "bound",
        ),
        (
            b"mode = \"detect\"\nbound = 1\ncheck = [\"1\"]\nspeed = 1",
            "S4",
            "speed",
        ),
        (
            b"mode = \"detect\"\nbound = 1\ncheck = [\"1\", \"11\"]",
            "C1",
            "",
        ),
        (
            b"mode = \"detect\"\nbound = 1\ncheck = [\"1\", \"2\"]",
            "C1",
            "",
        ),
        (b"mode = \"detect\"\nbound = 1\ncheck = []", "C1", ""),
        (b"mode = \"detect\"\nbound = 1\ncheck = [\"\"]", "C1", ""),
        (
            b"mode = \"detect\"\nbound = 1\ncheck = [\"00000000000000001\"]",
            "C1",
            "",
        ),
        (
            b"mode = \"detect\"\nbound = 1\ncheck = [\"1\", \"1\", \"1\", \"1\", \"1\", \"1\", \"1\", \"1\", \"1\", \"1\", \"1\", \"1\", \"1\"]",
            "C1",
            "",
        ),
        (b"mode = \"detect\"\nbound = 1\ncheck = 1", "S3", "check"),
        (
            b"mode = \"detect\"\nbound = 1\ncheck = \"1\"",
            "S3",
            "check",
        ),
        (
            b"mode = \"detect\"\nbound = 1\ncheck = [\"2\", 1]",
            "S3",
            "check",
        ),
        (b"bound = 0", "S2", "mode"),
        (b"speed = 1\nmode = \"detect\"", "S2", "bound"),
        (b"mode = 1\nbound = 0", "S3", "mode"),
        (
            b"mode = \"detect\"\nbound = 0\ncheck = [\"2\"]",
            "S3",
            "bound",
        ),
        (
            b"mode = \"detect\"\nbound = 1\ncheck = [\"2\"]\nstate_words = 1",
            "C1",
            "",
        ),
        (
            b"output_words = 1\nmode = \"detect\"\nbound = 1\ncheck = [\"1\"]\nstate_words = [[]]",
            "S3",
            "state_words",
        ),
        (
            b"mode = \"detect\"\nbound = 1\ncheck = [\"1\"]\noutput_words = [[\"a\", \"b\"]]\nspeed = 1",
            "S3",
            "output_words",
        ),
        (
            b"mode = \"detect\"\nbound = 1\ncheck = [\"1\"]\nstate_words = [[\"\"]]",
            "S3",
            "state_words",
        ),
        (
            b"mode = \"detect\"\nbound = 1\ncheck = [\"1\"]\nstate_words = [\"a\"]",
            "S3",
            "state_words",
        ),
        (
            b"mode = \"detect\"\nbound = 1\ncheck = [\"1\"]\nstate_words = [[1]]",
            "S3",
            "state_words",
        ),
        (
            b"mode = \"detect\"\nbound = 1\ncheck = [\"1\"]\nspeed = 1\nSpeed = 1\na = 1",
            "S4",
            "Speed",
        ),
    ];
    for (bytes, name, path) in table {
        match read(rt.alloc(), bytes) {
            Ok(_) => assert!(rt; false, "accepted"),
            Err(fault) => {
                assert!(rt; code_name(&fault) == name, "the code of a fault");
                assert!(rt; key(&fault) == path.as_bytes(), "the key of a fault");
            }
        }
    }
    Ok(())
}

// A settings file whose keys are in order as far as its library, and which goes on so.
fn with_library(rt: &HostRuntime, library: &str) -> Result<Vec<u8>, Fail> {
    let mut bytes = Vec::new(rt.alloc());
    bytes.extend_from_slice(b"mode = \"detect\"\nbound = 1\ncheck = [\"1\"]\n")?;
    bytes.extend_from_slice(library.as_bytes())?;
    Ok(bytes)
}

// Each library has the fault that is named.
#[test]
fn faults_of_libraries(rt: HostRuntime) -> Result<(), Fail> {
    let table = [
        ("sbox = 3", "S3", "sbox"),
        ("linear = []", "S3", "linear"),
        ("[sbox]\ns = 1", "S3", "sbox.s"),
        ("[linear]\nl = [\"1\"]", "S3", "linear.l"),
        ("[sbox.\"\"]", "S3", "sbox."),
        (
            "[sbox.s]\noutputs = 1\nvalues = [0, 1]",
            "S2",
            "sbox.s.inputs",
        ),
        ("[sbox.s]\ninputs = 0\noutputs = 9", "S3", "sbox.s.inputs"),
        ("[sbox.s]\ninputs = 9", "S3", "sbox.s.inputs"),
        ("[sbox.s]\ninputs = 1\nvalues = 0", "S2", "sbox.s.outputs"),
        (
            "[sbox.s]\ninputs = 1\noutputs = \"1\"\nvalues = []",
            "S3",
            "sbox.s.outputs",
        ),
        (
            "[sbox.s]\ninputs = 1\noutputs = 1\nspeed = 1",
            "S2",
            "sbox.s.values",
        ),
        (
            "[sbox.s]\ninputs = 1\noutputs = 2\nvalues = [3, 4]",
            "S3",
            "sbox.s.values",
        ),
        (
            "[sbox.s]\ninputs = 1\noutputs = 2\nvalues = [3, -1]",
            "S3",
            "sbox.s.values",
        ),
        (
            "[sbox.s]\ninputs = 1\noutputs = 2\nvalues = [3, 1.0]",
            "S3",
            "sbox.s.values",
        ),
        (
            "[sbox.s]\ninputs = 1\noutputs = 2\nvalues = [3, \"1\"]",
            "S3",
            "sbox.s.values",
        ),
        (
            "[sbox.s]\ninputs = 4\noutputs = 1\nvalues = [0, 0, 0, 0, 0, 0, 0, 0, 0, 0, 0, 0, 0, 0, 0]",
            "S3",
            "sbox.s.values",
        ),
        (
            "[sbox.s]\ninputs = 1\noutputs = 1\nvalues = [0, 1]\nspeed = 1\narea = 1",
            "S4",
            "sbox.s.area",
        ),
        (
            "[sbox.b]\ninputs = 9\n[sbox.a]\ninputs = 1\noutputs = 1\nvalues = [2, 2]",
            "S3",
            "sbox.a.values",
        ),
        (
            "[sbox.\"a.b\"]\ninputs = 1\noutputs = 0",
            "S3",
            "sbox.a.b.outputs",
        ),
        (
            "[sbox.a.b]\ninputs = 1\noutputs = 1\nvalues = [0, 1]",
            "S2",
            "sbox.a.inputs",
        ),
        (
            "[linear.\"a.b\"]\nrows = [\"1\"]\n[sbox.\"a.b\"]\ninputs = 1\noutputs = 1\nvalues = [0, 1]",
            "S3",
            "linear.a.b",
        ),
        (
            "[sbox.'a\"']\ninputs = 1\noutputs = 1\nvalues = [0]",
            "S3",
            "sbox.a\".values",
        ),
        ("[linear.l]\nspeed = 1", "S2", "linear.l.rows"),
        (
            "[linear.b]\nrows = []\n[linear.a]\nrows = [\"1\"]\nwidth = 1",
            "S4",
            "linear.a.width",
        ),
        ("[linear.l]\nrows = []", "S3", "linear.l.rows"),
        ("[linear.l]\nrows = \"1\"", "S3", "linear.l.rows"),
        ("[linear.l]\nrows = [\"\"]", "S3", "linear.l.rows"),
        ("[linear.l]\nrows = [\"11\", \"1\"]", "S3", "linear.l.rows"),
        ("[linear.l]\nrows = [\"12\"]", "S3", "linear.l.rows"),
        ("[linear.l]\nrows = [1]", "S3", "linear.l.rows"),
        (
            "[linear.l]\nrows = [\"1\"]\nwidth = 1",
            "S4",
            "linear.l.width",
        ),
        (
            "[linear.s]\nrows = [\"1\"]\n[sbox.s]\ninputs = 1\noutputs = 1\nvalues = [0, 1]",
            "S3",
            "linear.s",
        ),
        ("speed = 1\n[linear]\nl = 1", "S3", "linear.l"),
        ("speed = 1\n[sbox]\n[linear]", "S4", "speed"),
    ];
    for (library, name, path) in table {
        let bytes = with_library(&rt, library)?;
        match read(rt.alloc(), &bytes) {
            Ok(_) => assert!(rt; false, "accepted"),
            Err(fault) => {
                assert!(rt; code_name(&fault) == name, "the code of a fault");
                assert!(rt; key(&fault) == path.as_bytes(), "the key of a fault");
            }
        }
    }
    Ok(())
}

// A settings file with a layer of two rows and with the table of PRESENT.
#[test]
fn a_library_is_read(rt: HostRuntime) -> Result<(), Fail> {
    let library = "[sbox.present]\ninputs = 4\noutputs = 4\n\
        values = [12, 5, 6, 11, 9, 0, 10, 13, 3, 14, 15, 8, 4, 7, 1, 2]\n\
        [sbox.inverse]\ninputs = 1\noutputs = 1\nvalues = [1, 0]\n\
        [linear.mix]\nrows = [\"110\", \"011\"]\n";
    let bytes = with_library(&rt, library)?;
    match read(rt.alloc(), &bytes) {
        Ok(settings) => {
            assert_eq!(rt; (settings.tables.len(), settings.linears.len()), (2, 1));
            assert!(rt; settings.tables[0].name.bytes() == b"inverse".as_slice());
            assert!(rt; settings.tables[1].name.bytes() == b"present".as_slice());
            let table = &settings.tables[1].table;
            assert_eq!(rt; (table.ins, table.outs), (4, 4));
            assert_eq!(rt; table.rows.len(), 16);
            assert_eq!(rt; (table.rows[0], table.rows[1], table.rows[15]), (12, 5, 2));
            let mix = &settings.linears[0];
            assert!(rt; mix.name.bytes() == b"mix".as_slice());
            assert_eq!(rt; mix.layer.width, 3);
            assert_eq!(rt; mix.layer.rows.as_slice(), [0b011, 0b110].as_slice());
        }
        Err(_) => assert!(rt; false, "refused"),
    }
    Ok(())
}

// Dots inside quotes are bytes of a name: an entry `a.b` stands beside an entry `a`.
#[test]
fn names_may_have_dots(rt: HostRuntime) -> Result<(), Fail> {
    let library = "[sbox.\"a.b\"]\ninputs = 1\noutputs = 1\nvalues = [1, 0]\n\
        [sbox.a]\ninputs = 1\noutputs = 1\nvalues = [0, 1]\n[linear.\".a\"]\nrows = [\"11\"]\n[linear.\"a.b.\"]\nrows = [\"1\"]\n";
    let bytes = with_library(&rt, library)?;
    match read(rt.alloc(), &bytes) {
        Ok(settings) => {
            assert_eq!(rt; (settings.tables.len(), settings.linears.len()), (2, 2));
            assert!(rt; settings.tables[0].name.bytes() == b"a".as_slice());
            assert!(rt; settings.tables[1].name.bytes() == b"a.b".as_slice());
            assert_eq!(rt; settings.tables[1].table.rows.as_slice(), [1, 0].as_slice());
            assert!(rt; settings.linears[0].name.bytes() == b".a".as_slice());
            assert!(rt; settings.linears[1].name.bytes() == b"a.b.".as_slice());
            assert_eq!(rt; settings.linears[0].layer.width, 2);
        }
        Err(_) => assert!(rt; false, "refused"),
    }
    Ok(())
}

// The bytes of 5,000 S-boxes `s0`, `s1`, .. and as many layers `l0`, `l1`, ..
fn ten_thousand_entries(rt: &HostRuntime) -> Result<Vec<u8>, Fail> {
    let mut bytes = with_library(rt, "")?;
    for i in 0..5_000u32 {
        let entry = format!(in rt.alloc();
            "sbox.s{i} = {{inputs = 1, outputs = 1, values = [0, 1]}}\nlinear.l{i}.rows = [\"1\"]\n"
        )?;
        bytes.extend_from_slice(entry.as_bytes())?;
    }
    Ok(bytes)
}

// 10,000 entries are read and kept in byte order, `l10` before `l2`; one more layer with the name of an S-box is refused.
#[test]
fn many_entries(rt: HostRuntime) -> Result<(), Fail> {
    let mut bytes = ten_thousand_entries(&rt)?;
    match read(rt.alloc(), &bytes) {
        Ok(settings) => {
            assert_eq!(rt;
                (settings.tables.len(), settings.linears.len()),
                (5_000, 5_000)
            );
            assert!(rt; settings.tables[2].name.bytes() == b"s10".as_slice());
            assert!(rt; settings.linears[2].name.bytes() == b"l10".as_slice());
            match find_in_byte_order(&settings.linears, b"l4999") {
                Some(found) => assert!(rt; found.name.bytes() == b"l4999".as_slice()),
                None => assert!(rt; false, "not found"),
            }
            assert!(rt; find_in_byte_order(&settings.linears, b"l5000").is_none());
        }
        Err(_) => assert!(rt; false, "refused"),
    }
    bytes.extend_from_slice(b"linear.s4999.rows = [\"1\"]\n")?;
    match read(rt.alloc(), &bytes) {
        Ok(_) => assert!(rt; false, "accepted"),
        Err(fault) => assert!(rt; key(&fault) == b"linear.s4999".as_slice()),
    }
    Ok(())
}

// The names of so many entries, with their numbers behind these letters.
fn numbered(alloc: Global, front: &str, count: u32) -> Result<Vec<String>, AllocError> {
    let mut names = Vec::new(alloc);
    for i in 0..count {
        names.push(format!(in alloc; "{front}{i}")?)?;
    }
    Ok(names)
}

// How many of these names are found among tables, each with the table of that name.
fn count_tables(tables: &[NamedTable], names: &[String]) -> u32
    requires { IsStrictlySortedBy (slice_cmp nat_cmp) (map (λ t. t.name) tables.now) }
{
    let mut count: u32 = 0;
    for name in names {
        match sbox_table::find_in_byte_order(tables, name.as_bytes()) {
            Some(found) if found.name.bytes() == name.as_bytes() => count = count.saturating_add(1),
            _ => (),
        }
    }
    count
}

// The same among layers.
fn count_layers(layers: &[NamedLinear], names: &[String]) -> u32
    requires { IsStrictlySortedBy (slice_cmp nat_cmp) (map (λ l. l.name) layers.now) }
{
    let mut count: u32 = 0;
    for name in names {
        match find_in_byte_order(layers, name.as_bytes()) {
            Some(found) if found.name.bytes() == name.as_bytes() => count = count.saturating_add(1),
            _ => (),
        }
    }
    count
}

// Each of 10,000 entries is found by its name, and names before, between and behind theirs are not.
#[test]
fn entries_are_found(rt: HostRuntime) -> Result<(), Fail> {
    let alloc = rt.alloc();
    let bytes = ten_thousand_entries(&rt)?;
    let tables = numbered(alloc, "s", 6_000)?;
    let layers = numbered(alloc, "l", 6_000)?;
    match read(alloc, &bytes) {
        Ok(settings) => {
            let found = count_tables(&settings.tables, &tables);
            let others = count_tables(&settings.tables, &layers);
            assert_eq!(rt; (found, others), (5_000, 0));
            let found = count_layers(&settings.linears, &layers);
            let others = count_layers(&settings.linears, &tables);
            assert_eq!(rt; (found, others), (5_000, 0));
        }
        Err(_) => assert!(rt; false, "refused"),
    }
    Ok(())
}

// The bytes of a text of so many `a`, alone in a word.
fn long_word(rt: &HostRuntime, len: usize) -> Result<Vec<u8>, Fail> {
    let mut bytes = Vec::new(rt.alloc());
    bytes.extend_from_slice(b"mode = \"detect\"\nbound = 1\ncheck = [\"1\"]\nstate_words = [[\"")?;
    for _ in 0..len {
        bytes.push(b'a')?;
    }
    bytes.extend_from_slice(b"\"]]\n")?;
    Ok(bytes)
}

#[test]
fn names_have_at_most_255_bytes(rt: HostRuntime) -> Result<(), Fail> {
    let short = long_word(&rt, 255)?;
    assert!(rt; read(rt.alloc(), &short).is_ok());
    let long = long_word(&rt, 256)?;
    match read(rt.alloc(), &long) {
        Ok(_) => assert!(rt; false, "accepted"),
        Err(fault) => assert!(rt; code_name(&fault) == "S3"),
    }
    Ok(())
}

// An S-box that is as it must be, with a name of so many `a`.
fn long_entry(rt: &HostRuntime, len: usize) -> Result<Vec<u8>, Fail> {
    let mut bytes = with_library(rt, "[sbox.")?;
    for _ in 0..len {
        bytes.push(b'a')?;
    }
    bytes.extend_from_slice(b"]\ninputs = 1\noutputs = 1\nvalues = [0, 1]\n")?;
    Ok(bytes)
}

#[test]
fn entries_have_names_of_at_most_255_bytes(rt: HostRuntime) -> Result<(), Fail> {
    let short = long_entry(&rt, 255)?;
    assert!(rt; read(rt.alloc(), &short).is_ok());
    let long = long_entry(&rt, 256)?;
    match read(rt.alloc(), &long) {
        Ok(_) => assert!(rt; false, "accepted"),
        Err(fault) => {
            assert!(rt; code_name(&fault) == "S3");
            assert_eq!(rt; key(&fault).len(), 261);
        }
    }
    Ok(())
}

#[test]
fn settings_are_read(rt: HostRuntime) -> Result<(), Fail> {
    let bytes =
        b"mode = \"correct\"\nbound = 16\ncheck = [\"011\", \"101\"]\nstate_words = [[\"a\", \"b\"], [\"c\"]]\noutput_words = []\n";
    match read(rt.alloc(), bytes) {
        Ok(settings) => {
            assert!(rt; settings.mode == Mode::Correct);
            assert_eq!(rt; settings.bound, 16);
            assert_eq!(rt; (settings.code.k(), settings.code.r()), (2, 3));
            match &settings.state_words {
                Some(words) => {
                    assert_eq!(rt; words.len(), 2);
                    assert_eq!(rt; (words[0].len(), words[1].len()), (2, 1));
                    assert!(rt; words[0][1].bytes() == b"b".as_slice());
                }
                None => assert!(rt; false, "no words"),
            }
            match &settings.output_words {
                Some(words) => assert!(rt; words.is_empty()),
                None => assert!(rt; false, "no words"),
            }
        }
        Err(_) => assert!(rt; false, "refused"),
    }
    Ok(())
}

// Codes with known distances.
#[test]
fn strength_of_codes(rt: HostRuntime) -> Result<(), Fail> {
    let table: [(&[u8], Result<u8, TooSmall>); 6] = [
        (b"mode = \"detect\"\nbound = 1\ncheck = [\"1\"]", Ok(2)),
        (
            b"mode = \"detect\"\nbound = 3\ncheck = [\"0111\", \"1011\", \"1101\", \"1110\"]",
            Ok(4),
        ),
        (
            b"mode = \"detect\"\nbound = 2\ncheck = [\"0111\", \"0111\"]",
            Err(TooSmall { d: 2, need: 3 }),
        ),
        (
            b"mode = \"correct\"\nbound = 1\ncheck = [\"011\", \"101\", \"110\", \"111\"]",
            Ok(3),
        ),
        (
            b"mode = \"correct\"\nbound = 2\ncheck = [\"0111\", \"1011\", \"1101\", \"1110\"]",
            Err(TooSmall { d: 4, need: 5 }),
        ),
        (
            b"mode = \"correct\"\nbound = 2\ncheck = [\"111100\", \"001111\"]",
            Ok(5),
        ),
    ];
    for (bytes, answer) in table {
        match read(rt.alloc(), bytes) {
            Ok(settings) => assert!(rt; strength(&settings) == answer),
            Err(_) => assert!(rt; false, "refused"),
        }
    }
    Ok(())
}
