// Check matrices, codewords and syndromes.
ghost use Rattle.std.specs.Prelude.{◌≡◌, ℕ, ◌+◌, ◌^◌, ◌<◌, ◌≤◌, ◌↔◌, length, map, slice_get, IsOk, IfOk, All};
ghost use Rattle.guard_spec.specs.Codes.{data_places, IsCode, encoded, checks_by, checks_of, syndrome_of, IsCodeword, bits_of};
ghost use Rattle.block_code.specs.Shape.{HasShape, code_of};

use crate::Word;
use arrayvec::ArrayVec;
use std::marker::Model;
use thiserror::Error;

const MAX_PLACES: usize = 12;

/// Why rows are no check matrix.
#[derive(Clone, Copy, Debug, PartialEq, Eq, Error)]
pub enum CodeFault {
    #[error("a check matrix has 1 to 12 rows of 1 to 16 columns")]
    BadShape,
}

/// The check matrix of a systematic linear binary code: a row for each of its k data places, and in each row r
/// columns. The codeword of some data is the data, followed by the sum of the rows at which the data has a 1, as in
/// any text on coding theory. Words of fewer data places use the first rows.
#[derive(Debug, Drop)]
pub struct Code {
    r: u8,
    rows: ArrayVec<u32, MAX_PLACES>,
}

impl Model for Code {
    ghost use Rattle.std.specs.Prelude.{length};
    ghost use Rattle.guard_spec.specs.Codes.{Code as CheckMatrix};
    ghost use Rattle.block_code.specs.Shape.{HasShape, code_of};

    ghost Value = { CheckMatrix };

    ghost view = { λ c. code_of c.r c.rows.items };

    ghost invariant = { λ c. HasShape (length c.rows.items) c.r c.rows.items };
}

impl Code {
    /// A check matrix of k rows and r columns; bit j of a row is column j.
    pub fn new(k: u8, r: u8, rows: &[u32]) -> Result<Code, CodeFault>
        ensures made { IfOk result (λ c. c ≡ code_of r rows.now) }
        ensures accepted { IsOk result ↔ HasShape k r rows.now }
        ensures refused { (result ≡ Err CodeFault.BadShape) ↔ ¬ (HasShape k r rows.now) }
    {
        if k < 1 || r < 1 || r > 16 || rows.len() != k as usize {
            return Err(CodeFault::BadShape);
        }
        let end = 1u32 << r;
        if !rows.iter().all(|row| *row < end) {
            return Err(CodeFault::BadShape);
        }
        let Ok(rows) = ArrayVec::try_from(rows) else {
            return Err(CodeFault::BadShape);
        };
        Ok(Code { r, rows })
    }

    /// The number of data places, which is the number of rows.
    pub fn k(&self) -> u8
        ensures rows { result ≡ data_places self.now }
        ensures valid { IsCode self.now }
    {
        self.rows.len() as u8
    }

    /// The number of check places, which is the number of columns.
    pub fn r(&self) -> u8
        ensures columns { result ≡ self.now.columns }
        ensures valid { IsCode self.now }
    {
        self.r
    }

    /// Row i; bit j of it is column j.
    pub fn row(&self, i: u8) -> u32
        requires { i < data_places self.now }
        ensures bits { slice_get self.now.rows i ≡ Some (bits_of self.now.columns result) }
        ensures within { result < 2 ^ self.now.columns }
    {
        self.rows[i as usize]
    }

    /// The codeword of data of m places: the data at places 0 to m - 1, and then the check bits that the first m
    /// rows give.
    pub fn encode(&self, u: Word, m: u8) -> Word
        requires some_place { 1 ≤ m }
        requires places { m ≤ data_places self.now }
        requires within { u.0 < 2 ^ m }
        ensures codeword { bits_of (m + self.now.columns) result.0
            ≡ encoded self.now (bits_of m u.0) }
        ensures within { result.0 < 2 ^ (m + self.now.columns) }
    {
        Word(self.check_bits(u.0, m) << m | u.0)
    }

    /// The syndrome of a word of m data places: the check bits of its data, and those that it has, added.
    pub fn syndrome(&self, z: Word, m: u8) -> Word
        requires some_place { 1 ≤ m }
        requires places { m ≤ data_places self.now }
        requires within { z.0 < 2 ^ (m + self.now.columns) }
        ensures syndrome { bits_of self.now.columns result.0
            ≡ syndrome_of self.now m (bits_of (m + self.now.columns) z.0) }
        ensures within { result.0 < 2 ^ self.now.columns }
        ensures zero_on_codewords { (result.0 ≡ 0)
            ↔ IsCodeword self.now m (bits_of (m + self.now.columns) z.0) }
    {
        Word(self.check_bits(z.0, m) ^ z.0 >> m)
    }

    // The check bits of the m lowest bits of a word.
    fn check_bits(&self, word: u32, m: u8) -> u32
        requires { m ≤ data_places self.now }
        ensures valid { IsCode self.now }
        ensures sum { bits_of self.now.columns result ≡ checks_of self.now (bits_of m word) }
        ensures within { result < 2 ^ self.now.columns }
    {
        sum_at(&self.rows[..m as usize], word)
    }
}

// The sum of the rows at which the word has a 1: row i belongs to bit i.
fn sum_at(rows: &[u32], word: u32) -> u32
    requires { length rows.now ≤ 32 }
    ensures sum { (r : ℕ) → bits_of r result
        ≡ checks_by r (map (bits_of r) rows.now) (bits_of (length rows.now) word) }
    ensures within { (r : ℕ) → All (λ row. row < 2 ^ r) rows.now → result < 2 ^ r }
{
    let mut sum = 0;
    for (i, row) in rows.iter().enumerate() {
        if word >> i & 1 == 1 {
            sum ^= *row;
        }
    }
    sum
}
