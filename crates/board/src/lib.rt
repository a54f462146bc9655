// The record of a board, laid out as C does, so that programs in other languages can hold one.
#![tactic(auto)]

pub mod inner;

use sizes::{BOARD_CELLS, BOARD_ROWS, ROW_CELLS};

// The mark that ends a board file, its bytes 53 4C as a number, low byte first.
pub const MARK: usize = 0x4C53;

// A row of a board. Its first len places hold its cells' numbers and their weights; the others are spare.
#[repr(C)]
#[derive(Clone, Copy, Debug, PartialEq, Eq)]
pub struct Row {
    pub len: usize,
    pub low: usize,
    pub high: usize,
    pub names: [usize; ROW_CELLS],
    pub weights: [u8; ROW_CELLS],
}

// A board, with any numbers in it. Its first cells places hold domains and its first rows places rows; the others are spare.
#[repr(C)]
#[derive(Clone, Copy, Debug, PartialEq, Eq)]
pub struct Board {
    pub cells: usize,
    pub domains: [u32; BOARD_CELLS],
    pub rows: usize,
    pub lines: [Row; BOARD_ROWS],
}
