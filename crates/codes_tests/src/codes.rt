// Codewords, syndromes and shapes of small codes.
use block_code::{Code, CodeFault, Word, weight};

// The rows are 011 and 101, column 0 first.
const ROWS: [u32; 2] = [0b110, 0b101];

#[test]
fn words_are_encoded(rt: HostRuntime) -> Result<(), CodeFault> {
    let code = Code::new(2, 3, &ROWS)?;
    let words = [0b000_00, 0b110_01, 0b101_10, 0b011_11];
    for u in 0..4 {
        assert_eq!(rt; code.encode(Word(u), 2), Word(words[u as usize]));
    }
    assert_eq!(rt; code.encode(Word(1), 1), Word(0b110_1));
    assert_eq!(rt; weight(Word(0b110_01)), 3);
    Ok(())
}

#[test]
fn words_have_syndromes(rt: HostRuntime) -> Result<(), CodeFault> {
    let code = Code::new(2, 3, &ROWS)?;
    let syndromes = [
        0, 6, 5, 3, 1, 7, 4, 2, 2, 4, 7, 1, 3, 5, 6, 0, 4, 2, 1, 7, 5, 3, 0, 6, 6, 0, 3, 5, 7, 1,
        2, 4,
    ];
    for z in 0..32 {
        assert_eq!(rt; code.syndrome(Word(z), 2), Word(syndromes[z as usize]));
    }
    assert_eq!(rt; code.syndrome(Word(0b110_1), 1), Word(0));
    Ok(())
}

#[test]
fn parts_of_a_code(rt: HostRuntime) -> Result<(), CodeFault> {
    let code = Code::new(2, 3, &ROWS)?;
    assert_eq!(rt;
        (code.k(), code.r(), code.row(0), code.row(1)),
        (2, 3, 0b110, 0b101)
    );
    assert!(rt; Code::new(2, 17, &ROWS).is_err());
    Ok(())
}
