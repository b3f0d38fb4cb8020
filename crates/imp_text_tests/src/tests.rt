ghost use Rattle.std.specs.Prelude.{◌<◌, ◌^◌, length};

use imp_text::*;
use std::alloc::{AllocError, Global};
use std::test::Fail;

// The numbers and words of all lines of a source, as text.
fn all_lines(alloc: Global, source: &[u8], joins: bool) -> Result<Vec<u8>, AllocError>
    requires { length source.now < 2 ^ 32 }
{
    let mut lines = if joins {
        Lines::new(source)
    } else {
        Lines::plain(source)
    };
    let mut words = Vec::new(alloc);
    let mut text = Vec::new(alloc);
    while let Some(number) = lines.next_line(&mut words)? {
        text.extend_from_slice(format!(in alloc; "{number}")?.as_bytes())?;
        for word in &words {
            text.push(b' ')?;
            text.extend_from_slice(&source[word.start..word.end])?;
        }
        text.push(b'\n')?;
    }
    Ok(text)
}

#[derive(Clone, Copy)]
struct Case {
    source: &'static [u8],
    joined: &'static [u8],
    plain: &'static [u8],
}

#[test]
fn lines_and_words(rt: HostRuntime) -> Result<(), Fail> {
    let cases = [
        Case {
            source: b"",
            joined: b"",
            plain: b"",
        },
        // a CR before LF, a byte 0, a tab and a byte 31 are blanks
        Case {
            source: b"a b\r\n\r\n\tc\x00d\x1fe \n",
            joined: b"1 a b\n3 c d e\n",
            plain: b"1 a b\n3 c d e\n",
        },
        // bytes above 126 are none
        Case {
            source: b"\xff \x7f!\x80\n",
            joined: b"1 \xff \x7f!\x80\n",
            plain: b"1 \xff \x7f!\x80\n",
        },
        Case {
            source: b"# a\n b#c d\n#\ne # f\\\ng",
            joined: b"2 b\n4 e\n5 g\n",
            plain: b"2 b\n4 e\n5 g\n",
        },
        // three lines are joined
        Case {
            source: b"a\\\nb \\\n c\nd",
            joined: b"1 a b c\n4 d\n",
            plain: b"1 a\\\n2 b \\\n3 c\n4 d\n",
        },
        // a backslash before blanks, and one before a comment
        Case {
            source: b"a\\ \t\r\nb\nc\\ # d\ne\n",
            joined: b"1 a b\n3 c e\n",
            plain: b"1 a\\\n2 b\n3 c\\\n4 e\n",
        },
        // at the end of the text there is nothing to join
        Case {
            source: b"a\\",
            joined: b"1 a\n",
            plain: b"1 a\\\n",
        },
        Case {
            source: b"a\\\n",
            joined: b"1 a\n",
            plain: b"1 a\\\n",
        },
        // of two backslashes the last one is a blank
        Case {
            source: b"a\\b \\\\\nc",
            joined: b"1 a\\b \\ c\n",
            plain: b"1 a\\b \\\\\n2 c\n",
        },
        // lines without words are skipped, and a line has the number of its first
        Case {
            source: b"\\\n\\\n\n\\\n\\\na",
            joined: b"4 a\n",
            plain: b"1 \\\n2 \\\n4 \\\n5 \\\n6 a\n",
        },
    ];
    let alloc = rt.alloc();
    for case in &cases {
        assert!(rt; case.source.len() < 100);
        let joined = all_lines(alloc, case.source, true)?;
        assert_eq!(rt; joined.as_slice(), case.joined);
        let plain = all_lines(alloc, case.source, false)?;
        assert_eq!(rt; plain.as_slice(), case.plain);
    }
    Ok(())
}

#[test]
fn many_lines_are_joined(rt: HostRuntime) -> Result<(), Fail> {
    let alloc = rt.alloc();
    let mut source = Vec::new(alloc);
    for _ in 0..100_000u32 {
        source.extend_from_slice(b"a\\\n")?;
    }
    assert!(rt; source.len() < 1_000_000);
    let mut lines = Lines::new(&source);
    let mut words = Vec::new(alloc);
    assert_eq!(rt; lines.next_line(&mut words)?, Some(1));
    assert_eq!(rt; words.len(), 100_000);
    assert_eq!(rt; lines.next_line(&mut words)?, None);
    assert_eq!(rt; words.len(), 0);
    Ok(())
}

#[test]
fn numbers_in_decimal_digits(rt: HostRuntime) {
    let cases: [(&[u8], u32, Option<u32>); 10] = [
        (b"", 9, None),
        (b"0", 0, Some(0)),
        (b"000007", 7, Some(7)),
        (b"0000007", 7, None),
        (b"999999", 999_999, Some(999_999)),
        (b"1000000", u32::MAX, None),
        (b"10", 9, None),
        (b"-1", 9, None),
        (b"1:", 99, None),
        (b"/1", 99, None),
    ];
    for (word, most, want) in cases {
        assert_eq!(rt; decimal(word, most), want);
    }
}

#[test]
fn bytes_as_they_are_printed(rt: HostRuntime) -> Result<(), Fail> {
    let alloc = rt.alloc();
    for b in 0..=u8::MAX {
        let printed = escape(b);
        let mut want = format!(in alloc; "\\x{b:02x}")?;
        if b.is_ascii_graphic() && b != b'\\' {
            want = format!(in alloc; "{}", char::from(b))?;
        }
        assert_eq!(rt; printed.as_slice(), want.as_bytes());
    }
    Ok(())
}

#[test]
fn counts_by_their_words(rt: HostRuntime) {
    assert_eq!(rt; What::Cover.word(), "cover");
    assert_eq!(rt; What::Inputs.word(), "inputs");
    assert_eq!(rt; What::Outputs.word(), "outputs");
    assert_eq!(rt; What::Clocks.word(), "clocks");
    assert_eq!(rt; What::Latches.word(), "latches");
    assert_eq!(rt; What::Statements.word(), "statements");
    assert_eq!(rt; What::Source.word(), "source");
}

#[test]
fn names_are_numbered_in_order(rt: HostRuntime) -> Result<(), Fail> {
    let mut names = Names::new(rt.alloc());
    let first = names.intern(b"a")?;
    let second = names.intern(b"b")?;
    assert_eq!(rt; first, NameId(0));
    assert_eq!(rt; second, NameId(1));
    assert_eq!(rt; names.len(), 2);
    assert_eq!(rt; names.intern(b"a")?, first);
    assert_eq!(rt; names.len(), 2);
    assert_eq!(rt; names.find(b"b"), Some(second));
    assert_eq!(rt; names.find(b"c"), None);
    assert_eq!(rt; names.get(NameId(1)), b"b".as_slice());
    Ok(())
}

#[test]
fn texts_and_names_keep_their_bytes(rt: HostRuntime) -> Result<(), Fail> {
    let alloc = rt.alloc();
    assert_eq!(rt; Text::new(alloc, b"")?.bytes(), b"".as_slice());
    assert_eq!(rt; Name::new(alloc, b"a")?.bytes(), b"a".as_slice());
    Ok(())
}
