use blif_read::{BlifFault, Clocking, NameId, Port, Row, Statement, What, read};
use std::alloc::{AllocError, Global};
use std::test::Fail;

const LONGEST_TEXT: usize = 1000;

// A text with a name of so many bytes in its middle.
fn with_tail(alloc: Global, front: &[u8], len: usize, tail: &[u8]) -> Result<Vec<u8>, AllocError> {
    let mut text = front.to_vec(alloc)?;
    for _ in 0..len {
        text.push(b'a')?;
    }
    text.extend_from_slice(tail)?;
    Ok(text)
}

// A text whose input has a name of so many bytes.
fn with_long_name(alloc: Global, len: usize) -> Result<Vec<u8>, AllocError> {
    with_tail(alloc, b".model m\n.inputs ", len, b"\n.end\n")
}

#[derive(Clone, Copy, Debug, PartialEq, Eq)]
enum Code {
    B1,
    B2,
    B3,
    B4,
    B5,
    B6,
    B7,
    B8,
    B9,
    B10,
    B11,
    NoMemory,
}

// The code of a fault, and its line.
fn code_of(fault: &BlifFault) -> (Code, u32) {
    match fault {
        BlifFault::UnknownStatement(line, _) => (Code::B1, *line),
        BlifFault::BadRow(line) => (Code::B2, *line),
        BlifFault::MixedCover(line) => (Code::B3, *line),
        BlifFault::BadLatch(line) => (Code::B4, *line),
        BlifFault::NoModel(line) => (Code::B5, *line),
        BlifFault::LongName(line) => (Code::B6, *line),
        BlifFault::TooMany(line, _) => (Code::B7, *line),
        BlifFault::TwiceModel(line, _) => (Code::B8, *line),
        BlifFault::BadSubckt(line) => (Code::B9, *line),
        BlifFault::AfterEnd(line) => (Code::B10, *line),
        BlifFault::WordCount(line) => (Code::B11, *line),
        BlifFault::NoMemory => (Code::NoMemory, 0),
    }
}

// The code of a short text's first fault, and its line.
fn fault_in(alloc: Global, text: &[u8]) -> Option<(Code, u32)> {
    if text.len() > LONGEST_TEXT {
        return None;
    }
    match read(alloc, text) {
        Ok(_) => None,
        Err(fault) => Some(code_of(&fault)),
    }
}

#[test]
fn the_first_fault_is_told(rt: HostRuntime) -> Result<(), Fail> {
    let cases = [
        (b"".as_slice(), Some((Code::B5, 0))),
        (b".inputs a\n".as_slice(), Some((Code::B5, 1))),
        (
            b".model m\n.gate nand2 a=x\n".as_slice(),
            Some((Code::B1, 2)),
        ),
        (b".model m\n.\xff\n".as_slice(), Some((Code::B1, 2))),
        (
            b".model m\n.names a b y\n1 1\n".as_slice(),
            Some((Code::B2, 3)),
        ),
        (b".model m\n1 1\n".as_slice(), Some((Code::B2, 2))),
        (
            b".model m\n# one\n.names a b \\\ny\n11 1\n00 0\n".as_slice(),
            Some((Code::B3, 6)),
        ),
        (
            b".model m\n.latch a b ah clk 0\n".as_slice(),
            Some((Code::B4, 2)),
        ),
        (
            b".model m\n.names a b c d e f g h i j k l m n o p q y\n".as_slice(),
            Some((Code::B7, 2)),
        ),
        (
            b".model m\n.names a b c d e f g h i j k l m n o p y\n".as_slice(),
            None,
        ),
        (
            b".model m\n.end\n.model m\n".as_slice(),
            Some((Code::B8, 3)),
        ),
        (b".model m\n.subckt s a\n".as_slice(), Some((Code::B9, 2))),
        (
            b".model m\n.end\n.names y\n".as_slice(),
            Some((Code::B10, 3)),
        ),
        (b".model\n".as_slice(), Some((Code::B11, 1))),
        // a row behind the cover of one more row, behind `.end`, and behind a latch in between
        (
            b".model c\n.inputs a b\n.outputs y z u v\n.names a b y\n00 0\n11 1\n.names z\n".as_slice(),
            Some((Code::B3, 6)),
        ),
        (
            b".model m\n.names a y\n1 1\n.end\n0 1\n".as_slice(),
            Some((Code::B10, 5)),
        ),
        (
            b".model m\n.names a y\n1 1\n.latch y q\n0 1\n".as_slice(),
            Some((Code::B2, 5)),
        ),
        // the first fault is that of the cover, and not of the model behind it
        (
            b".model m\n.names a y\n1 1\n0 0\n.model m\n".as_slice(),
            Some((Code::B3, 4)),
        ),
        // each statement once, and a name with a byte 255
        (
            b".model m\n.inputs a \xff\n.outputs y q\n.clock c\n.names a \xff y\n1- 1\n-1 1\n.latch y q re c 0\n.subckt s i=a o=z\n.end\n.model s\n.end\n".as_slice(),
            None,
        ),
    ];
    for (text, fault) in cases {
        assert_eq!(rt; fault_in(rt.alloc(), text), fault, "at {text:?}");
    }
    let short = with_long_name(rt.alloc(), 255)?;
    assert_eq!(rt; fault_in(rt.alloc(), &short), None);
    let long = with_long_name(rt.alloc(), 256)?;
    assert_eq!(rt; fault_in(rt.alloc(), &long), Some((Code::B6, 2)));
    // a long name comes before a bad port word, and before an input too many
    let long = with_tail(rt.alloc(), b".model m\n.subckt s a ", 256, b"=b\n")?;
    assert_eq!(rt; fault_in(rt.alloc(), &long), Some((Code::B6, 2)));
    let front = b".model m\n.names a b c d e f g h i j k l m n o p ".as_slice();
    let long = with_tail(rt.alloc(), front, 256, b" y\n")?;
    assert_eq!(rt; fault_in(rt.alloc(), &long), Some((Code::B6, 2)));
    let short = with_tail(rt.alloc(), front, 255, b" y\n")?;
    assert_eq!(rt; fault_in(rt.alloc(), &short), Some((Code::B7, 2)));
    Ok(())
}

// The names and the lines of some ports.
fn places(alloc: Global, ports: &[Port]) -> Result<Vec<(NameId, u32)>, AllocError> {
    let mut places = Vec::new(alloc);
    for port in ports {
        places.push((port.name, port.line))?;
    }
    Ok(places)
}

// A port that comes again, `NIL` as a net like others where no control stands, a row with a dash, a latch without a
// control, and a port word with two `=`.
#[test]
fn statements_are_read(rt: HostRuntime) -> Result<(), Fail> {
    let text =
        b".model m\n.inputs b a b\n.names a NIL a\n.names a b c y\n1-0 0\n.names z\n1\n.latch d q re NIL 2\n.subckt s a=b=c\n";
    let Ok(file) = read(rt.alloc(), text) else {
        panic!(rt; "it says a file");
    };
    assert_eq!(rt; file.models.len(), 1);
    let model = &file.models[0];
    assert_eq!(rt; model.names.len(), 9);
    let inputs = places(rt.alloc(), &model.inputs)?;
    let (b, a) = (NameId(0), NameId(1));
    assert_eq!(rt; inputs.as_slice(), [(b, 2), (a, 2), (b, 2)].as_slice());
    assert_eq!(rt; model.statements.len(), 5);
    let Statement::Names { ins, out, cover } = &model.statements[0].what else {
        panic!(rt; "it is a cover");
    };
    assert_eq!(rt; ins.as_slice(), [a, NameId(2)].as_slice());
    assert_eq!(rt; *out, a);
    assert!(rt; cover.on && cover.rows.is_empty());
    let Statement::Names { cover, .. } = &model.statements[1].what else {
        panic!(rt; "it is a cover");
    };
    let row = Row { care: 5, value: 1 };
    assert_eq!(rt; cover.rows.as_slice(), [row].as_slice());
    assert!(rt; !cover.on);
    let Statement::Names { cover, .. } = &model.statements[2].what else {
        panic!(rt; "it is a cover");
    };
    let row = Row { care: 0, value: 0 };
    assert_eq!(rt; cover.rows.as_slice(), [row].as_slice());
    assert!(rt; cover.on);
    let Statement::Latch {
        d,
        q,
        clocking,
        init,
    } = &model.statements[3].what
    else {
        panic!(rt; "it is a latch");
    };
    assert_eq!(rt; (*d, *q), (NameId(6), NameId(7)));
    assert_eq!(rt; *init, Some(2));
    let Clocking::Edge { rising, control } = *clocking else {
        panic!(rt; "it has an edge");
    };
    assert!(rt; rising && control.is_none());
    let Statement::Subckt {
        model: placed,
        binds,
    } = &model.statements[4].what
    else {
        panic!(rt; "it places a model");
    };
    assert_eq!(rt; placed.bytes(), b"s".as_slice());
    assert_eq!(rt; binds.len(), 1);
    assert_eq!(rt; binds[0].formal.bytes(), b"a".as_slice());
    assert_eq!(rt; model.names.find(b"b=c"), Some(binds[0].actual));
    Ok(())
}

#[test]
fn a_file_of_two_models_is_read(rt: HostRuntime) -> Result<(), Fail> {
    let text =
        b"# two models\n.model top\n.inputs b \\\n a\n.outputs y\n.clock c\n.names a b \\\ny\n1- 0\n-1 0\n.latch y q re c 1\n.subckt low i=q o=z\n.end\n\n.model low\n.names o\n";
    let Ok(file) = read(rt.alloc(), text) else {
        panic!(rt; "it says a file");
    };
    assert_eq!(rt; file.models.len(), 2);
    let top = &file.models[0];
    assert_eq!(rt; top.name.bytes(), b"top".as_slice());
    assert_eq!(rt; top.line, 2);
    assert_eq!(rt; top.names.len(), 6);
    assert_eq!(rt; top.names.find(b"b"), Some(NameId(0)));
    assert_eq!(rt; top.names.find(b"a"), Some(NameId(1)));
    assert_eq!(rt; top.names.find(b"z"), Some(NameId(5)));
    let inputs = places(rt.alloc(), &top.inputs)?;
    assert_eq!(rt;
        inputs.as_slice(),
        [(NameId(0), 3), (NameId(1), 3)].as_slice()
    );
    let outputs = places(rt.alloc(), &top.outputs)?;
    assert_eq!(rt; outputs.as_slice(), [(NameId(2), 5)].as_slice());
    let clocks = places(rt.alloc(), &top.clocks)?;
    assert_eq!(rt; clocks.as_slice(), [(NameId(3), 6)].as_slice());
    assert_eq!(rt; top.statements.len(), 3);
    assert_eq!(rt; top.statements[0].line, 7);
    assert_eq!(rt; top.statements[1].line, 11);
    assert_eq!(rt; top.statements[2].line, 12);
    let low = &file.models[1];
    assert_eq!(rt; low.name.bytes(), b"low".as_slice());
    assert_eq!(rt; low.line, 15);
    assert_eq!(rt; low.statements.len(), 1);
    assert_eq!(rt; low.statements[0].line, 16);
    Ok(())
}

// A line that ends with CR and LF, one that is joined, comments, and neither a last LF nor `.end`
#[test]
fn rows_are_read(rt: HostRuntime) -> Result<(), Fail> {
    let text =
        b".model m\r\n.inputs a \\\n b\n.outputs y\n.names a b y # and\n11 1 # row\n.names a b z\n0- 0\n-1 0";
    let Ok(file) = read(rt.alloc(), text) else {
        panic!(rt; "it says a file");
    };
    assert_eq!(rt; file.models.len(), 1);
    let model = &file.models[0];
    assert_eq!(rt; model.statements.len(), 2);
    let Statement::Names { ins, out, cover } = &model.statements[0].what else {
        panic!(rt; "it is a cover");
    };
    assert_eq!(rt; ins.as_slice(), [NameId(0), NameId(1)].as_slice());
    assert_eq!(rt; *out, NameId(2));
    assert!(rt; cover.on);
    assert_eq!(rt;
        cover.rows.as_slice(),
        [Row { care: 3, value: 3 }].as_slice()
    );
    let Statement::Names { out, cover, .. } = &model.statements[1].what else {
        panic!(rt; "it is a cover");
    };
    assert_eq!(rt; *out, NameId(3));
    assert!(rt; !cover.on);
    let rows = [Row { care: 1, value: 0 }, Row { care: 2, value: 2 }];
    assert_eq!(rt; cover.rows.as_slice(), rows.as_slice());
    Ok(())
}

#[test]
fn faults_have_their_fields(rt: HostRuntime) -> Result<(), Fail> {
    let Err(BlifFault::UnknownStatement(2, word)) = read(rt.alloc(), b".model m\n.gate nand2 a=x\n")
    else {
        panic!(rt; "it is an unknown statement");
    };
    assert_eq!(rt; word.bytes(), b".gate".as_slice());
    let Err(BlifFault::TwiceModel(3, name)) = read(rt.alloc(), b".model m\n.end\n.model m\n") else {
        panic!(rt; "it is a model twice");
    };
    assert_eq!(rt; name.bytes(), b"m".as_slice());
    let text = b".model m\n.names a b c d e f g h i j k l m n o p q y\n";
    let Err(BlifFault::TooMany(2, What::Cover)) = read(rt.alloc(), text) else {
        panic!(rt; "it is a cover with too many inputs");
    };
    Ok(())
}
