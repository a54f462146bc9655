// Calls for the floors above: a record of zeros, and what the reader and the writer of a board both refuse.
ghost use Rattle.std.specs.Prelude.{◌≡◌, ◌<◌, length};
ghost use Rattle.told.specs.Told.{firsts, refusal_in};
ghost use Rattle.board.specs.Board.{zero_row, zero_board};
ghost use Rattle.board.specs.Refusals.{sizes_refuse, head_refuses, unknown_refuses, repeat_refuses, pair_refuses, pairs_refuse, board_row_refuses, line_refuses, board_refuses};

use crate::{Board, Row};
use sizes::{BOARD_CELLS, BOARD_ROWS, ROW_CELLS, length_refuses, limits_refuse};
use told::Refusal;

// A row of zeros.
pub fn zero_row() -> Row
    ensures { result ≡ zero_row }
{
    Row {
        len: 0,
        low: 0,
        high: 0,
        names: [0; ROW_CELLS],
        weights: [0; ROW_CELLS],
    }
}

// A board of zeros, as a refused read has it.
pub fn zero_board() -> Board
    ensures { result ≡ zero_board }
{
    let row = zero_row();
    Board {
        cells: 0,
        domains: [0; BOARD_CELLS],
        rows: 0,
        lines: [row; BOARD_ROWS],
    }
}

// Whether a board may have this many cells and rows.
#[tactic(auto, unfolding(crate::specs::Refusals::sizes_refuse))]
pub fn sizes_refuse(cells: usize, rows: usize) -> Result<(), Refusal>
    ensures { refusal_in result ≡ sizes_refuse cells rows }
{
    if cells == 0 || BOARD_CELLS < cells || rows == 0 || BOARD_ROWS < rows {
        return Err(Refusal::Counts);
    }
    Ok(())
}

// Whether a row may have this length and these limits.
#[tactic(auto, unfolding(crate::specs::Refusals::head_refuses))]
pub fn head_refuses(len: usize, low: usize, high: usize) -> Result<(), Refusal>
    ensures { refusal_in result ≡ head_refuses len low high }
{
    length_refuses(len)?;
    limits_refuse(low, high)
}

// Whether a board of so many cells has the one that a pair names.
fn unknown_refuses(cells: usize, name: usize) -> Result<(), Refusal>
    ensures { refusal_in result ≡ unknown_refuses cells name }
{
    if cells <= name {
        return Err(Refusal::Cell);
    }
    Ok(())
}

// Whether no pair before pair k names its cell.
#[tactic(auto, using(told::proofs::ToldLaws::refusal_loop), unfolding(crate::specs::Refusals::repeat_refuses))]
fn repeat_refuses(names: &[usize], k: usize) -> Result<(), Refusal>
    requires { k < length names.now }
    ensures { refusal_in result ≡ repeat_refuses names.now k }
{
    for j in 0..k {
        if names[j] == names[k] {
            return Err(Refusal::Twice);
        }
    }
    Ok(())
}

// What pair k is refused for.
#[tactic(auto, unfolding(crate::specs::Refusals::pair_refuses))]
fn pair_refuses(cells: usize, names: &[usize], k: usize) -> Result<(), Refusal>
    requires { k < length names.now }
    ensures { refusal_in result ≡ pair_refuses cells names.now k }
{
    unknown_refuses(cells, names[k])?;
    repeat_refuses(names, k)
}

// The first refusal of a row's pairs.
#[tactic(auto, using(told::proofs::ToldLaws::refusal_loop))]
pub fn pairs_refuse(cells: usize, names: &[usize]) -> Result<(), Refusal>
    ensures { refusal_in result ≡ pairs_refuse cells names.now (length names.now) }
{
    for k in 0..names.len() {
        pair_refuses(cells, names, k)?;
    }
    Ok(())
}

// The first refusal of a row.
#[tactic(auto, unfolding(crate::specs::Refusals::board_row_refuses))]
fn row_refuses(cells: usize, row: &Row) -> Result<(), Refusal>
    ensures { refusal_in result ≡ board_row_refuses cells row.now }
{
    head_refuses(row.len, row.low, row.high)?;
    let names = &row.names[..row.len];
    pairs_refuse(cells, names)
}

// The first refusal of some rows.
#[tactic(auto, using(told::proofs::ToldLaws::refusal_loop))]
fn rows_refuse(cells: usize, rows: &[Row]) -> Result<(), Refusal>
    ensures { refusal_in result ≡ firsts (line_refuses cells rows.now) (length rows.now) }
{
    for row in rows {
        row_refuses(cells, row)?;
    }
    Ok(())
}

// The first refusal of a board: what a writer tests before it looks at its room.
#[tactic(auto, unfolding(crate::specs::Refusals::board_refuses))]
pub fn board_refuses(board: Board) -> Result<(), Refusal>
    ensures { refusal_in result ≡ board_refuses board }
{
    sizes_refuse(board.cells, board.rows)?;
    // copied past that test: of `&board.lines` the compiler makes a copy of the whole board before it, which a refused record pays for
    let lines = board.lines;
    let rows = &lines[..board.rows];
    rows_refuse(board.cells, rows)
}
