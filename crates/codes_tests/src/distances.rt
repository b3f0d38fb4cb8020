// Distances of known codes, and lists of error patterns.
use block_code::{Code, CodeFault, Word};
use distance::{distance, patterns};
use std::test::Fail;

// Check matrices of known distance, column 0 of a row in the lowest bit, and the least data of that weight.
#[test]
fn distances_of_known_codes(rt: HostRuntime) -> Result<(), CodeFault> {
    let table: [(u8, &[u32], u8, u32); 7] = [
        (1, &[0b1], 2, 1),
        (1, &[0b1, 0b1, 0b1, 0b1], 2, 1),
        (3, &[0b110, 0b101, 0b011, 0b111], 3, 1),
        (4, &[0b1110, 0b1101, 0b1011, 0b0111], 4, 1),
        (6, &[0b001111, 0b111100], 5, 1),
        (4, &[0b1110, 0b1110], 2, 0b11),
        (3, &[0b000, 0b110], 1, 1),
    ];
    for (r, rows, d, least) in table {
        let code = Code::new(rows.len() as u8, r, rows)?;
        assert_eq!(rt; distance(&code), (d, Word(least)));
    }
    Ok(())
}

// The errors of one place, data places first, and their syndromes: the row of a data place, the column of a check place.
#[test]
fn patterns_of_one_place(rt: HostRuntime) -> Result<(), Fail> {
    let code = Code::new(4, 3, &[0b110, 0b101, 0b011, 0b111])?;
    let (d, _) = distance(&code);
    assert!(rt; 2 < d);
    let found = patterns(rt.alloc(), &code, 4, 1)?;
    let syndromes = [0b110, 0b101, 0b011, 0b111, 0b001, 0b010, 0b100];
    assert_eq!(rt; found.len(), 7);
    for (i, pattern) in found.iter().enumerate() {
        assert_eq!(rt;
            (pattern.error.0, pattern.syndrome.0),
            (1 << i, syndromes[i])
        );
    }
    Ok(())
}

#[test]
fn patterns_of_two_places(rt: HostRuntime) -> Result<(), Fail> {
    let code = Code::new(2, 6, &[0b001111, 0b111100])?;
    let (d, _) = distance(&code);
    assert!(rt; 4 < d);
    let found = patterns(rt.alloc(), &code, 1, 2)?;
    assert_eq!(rt; found.len(), 7 + 21);
    let errors = [0b11, 0b101, 0b110, 0b1001, 0b1010, 0b1100, 0b10001];
    for (pattern, error) in found[7..14].iter().zip(errors) {
        assert_eq!(rt; pattern.error, Word(error));
    }
    assert_eq!(rt; found[27].error, Word(0b1100000));
    Ok(())
}
