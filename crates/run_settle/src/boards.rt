// The boards that are settled.
ghost use Rattle.std.specs.Prelude.{◌≤◌, ◌<◌, length};
ghost use Rattle.sizes.specs.Sizes.{row_cells, board_cells, board_rows};

use board::inner::{zero_board, zero_row};
use board::{Board, Row};
use sizes::{BOARD_CELLS, BOARD_ROWS, ROW_CELLS};

const EVERY: u32 = u32::MAX;

const EVEN: u32 = 0x55555555;

// A row of cells, each with its weight.
fn row(low: usize, high: usize, pairs: &[(usize, u8)]) -> Row
    requires { length pairs.now ≤ row_cells }
{
    let mut row = Row {
        len: pairs.len(),
        low,
        high,
        ..zero_row()
    };
    for k in 0..pairs.len() {
        (row.names[k], row.weights[k]) = pairs[k];
    }
    row
}

fn board(domains: &[u32], rows: &[Row]) -> Board
    requires { (length domains.now ≤ board_cells) × (length rows.now ≤ board_rows) }
{
    let mut board = Board {
        cells: domains.len(),
        rows: rows.len(),
        ..zero_board()
    };
    board.domains[..domains.len()].copy_from_slice(domains);
    board.lines[..rows.len()].copy_from_slice(rows);
    board
}

// The board of the scope document's report.
pub fn report() -> Board {
    let first = row(3, 3, &[(0, 1), (1, 1)]);
    let last = row(7, 8, &[(1, 1), (2, 2)]);
    board(&[14, 14, 14], &[first, last])
}

// The first row strikes nothing in the first pass, and then what the last row left makes it strike.
pub fn back() -> Board {
    let first = row(3, 3, &[(0, 1), (1, 1)]);
    let last = row(1, 1, &[(1, 1), (2, 1)]);
    board(&[15, 15, 15], &[first, last])
}

// Two rows over the same cells that wear each other down.
pub fn many() -> Board {
    let first = row(91, 91, &[(0, 1), (1, 3), (2, 4)]);
    let last = row(23, 23, &[(0, 2), (1, 1), (2, 1)]);
    board(&[16777199, 16776183, 8388606], &[first, last])
}

// The first row has total 0, and so then has the second; cell 3 stands in no row.
pub fn dead() -> Board {
    let first = row(5, 5, &[(0, 2), (1, 2)]);
    let last = row(0, 9, &[(1, 1), (2, 1)]);
    board(&[15, 15, 15, 15], &[first, last])
}

// Cells 0, 2 and 4 stand in no row; their domains are whole, empty and a single value.
pub fn loose() -> Board {
    let only = row(510, 511, &[(1, 255), (3, 1)]);
    board(&[EVERY, EVERY, 0, EVERY, 0x80000000], &[only])
}

// Row i: at place k the cell (2 i + 7 k) modulo 64, with weight (i + 3 k) modulo 7, plus 1; low and high are 40 + 4 i.
fn full_row(i: usize) -> Row
    requires { i < board_rows }
{
    let mut row = Row {
        len: ROW_CELLS,
        low: 40 + 4 * i,
        high: 40 + 4 * i,
        ..zero_row()
    };
    for k in 0..ROW_CELLS {
        row.names[k] = (2 * i + 7 * k) % BOARD_CELLS;
        row.weights[k] = ((i + 3 * k) % 7 + 1) as u8;
    }
    row
}

// 64 cells, of which every third lists all values and the others the even ones, and 32 rows of full length.
pub fn large() -> Board {
    let mut domains = [EVEN; BOARD_CELLS];
    for cell in (0..BOARD_CELLS).step_by(3) {
        domains[cell] = EVERY;
    }
    let mut rows = [zero_row(); BOARD_ROWS];
    for i in 0..BOARD_ROWS {
        rows[i] = full_row(i);
    }
    board(&domains, &rows)
}
