// What the words of a row say.
ghost use Rattle.std.specs.Prelude.{◌≡◌, ◌≤◌, length, map};
ghost use Rattle.netlist_spec.specs.Reads.{row_of as row_of_cells};
ghost use Rattle.netlist_spec.specs.Said.{char_cell, row_said};
ghost use Rattle.blif_read.specs.LineTests.{words_in};
ghost use Rattle.blif_read.specs.Spelled.{IsRow, cells_said, last_said};
ghost use Rattle.blif_read.specs.View.{row_of};

use crate::Row;

fn read_cells(cells: &[u8]) -> Row
    requires { length cells.now ≤ 16 }
    ensures { row_of result ≡ row_of_cells (map char_cell cells.now) }
{
    let mut care = 0;
    let mut value = 0;
    for (i, cell) in cells.iter().enumerate() {
        let bit = 1 << i;
        match cell {
            b'0' => care += bit,
            b'1' => {
                care += bit;
                value += bit;
            }
            _ => {}
        }
    }
    Row { care, value }
}

// The places of a row.
pub(crate) fn read_row(words: &[&[u8]]) -> Row
    requires { IsRow (words_in words.now) }
    ensures { row_of result ≡ row_of_cells (cells_said (row_said (words_in words.now))) }
{
    match words {
        [cells, _] => read_cells(cells),
        _ => Row { care: 0, value: 0 },
    }
}

// Whether the last character of a row is 1.
pub(crate) fn read_last(words: &[&[u8]]) -> bool
    requires { IsRow (words_in words.now) }
    ensures { result ≡ last_said (row_said (words_in words.now)) }
{
    words[words.len() - 1] == b"1".as_slice()
}
