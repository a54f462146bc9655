// Reads a board file: from any bytes to a board, or to why there is none.
#![tactic(auto)]

ghost use Rattle.std.specs.Prelude.{◌≡◌, ℕ, ◌+◌, ◌*◌, ◌≤◌, ◌<◌, length};
ghost use Rattle.told.specs.Told.{number_of, refusal_in};
ghost use Rattle.sizes.specs.Sizes.{row_cells, board_cells};
ghost use Rattle.board.specs.Board.{filled};
ghost use Rattle.reader.specs.File.{byte, two, four, trailer, file_at, cells_in, domain_in, row_in, row_end, rows_in, lines_in, board_in};
ghost use Rattle.reader.specs.Reading.{size_refuses, mark_refuses, start_refuses, trailer_refuses, row_in_refuses, rest_refuses, rows_refuse, file_refuses, told, read_says, read_keeps, refusal_by, told_counts, counts_say};

use board::inner::{head_refuses, pairs_refuse, sizes_refuse, zero_board, zero_row};
use board::{Board, MARK, Row};
use sizes::{BOARD_CELLS, BOARD_ROWS, FILE, ROW_CELLS};
use told::Refusal;

// How many bytes the trailer has.
const TRAILER: usize = 6;

// The reader's answer, with the board that it hands over, refused or not: the board of a refused read is promised to be all zero
// (`read_keeps`), so it stands beside the Result and not in it.
#[derive(Clone, Copy)]
pub struct Reading {
    pub outcome: Result<(), Refusal>,
    pub board: Board,
}

// How many cells and rows a file's board has.
#[derive(Clone, Copy)]
pub struct Counts {
    pub cells: usize,
    pub rows: usize,
}

// A board file with a place in it.
#[derive(Clone, Copy)]
pub struct FileReader<'a> {
    pub file: &'a [u8],
    pub place: usize,
}

// A reader begins at the trailer.
pub fn begin<'a>(file: &'a [u8]) -> FileReader<'a>
    ensures { (result.file ≡ file.entry) × (result.place ≡ trailer file.now) }
{
    FileReader {
        file,
        place: trailer_place(file),
    }
}

// Reads from the reader's place.
pub fn read_from<'a>(reader: FileReader<'a>) -> Reading
    ensures read_value { told result.outcome result.board ≡ read_says (file_at reader.entry.file.now reader.entry.place) }
    ensures board_kept { result.board ≡ read_keeps (file_at reader.entry.file.now reader.entry.place) }
{
    let place = reader.place;
    read_at(reader.file, place)
}

// Reads a board file. A refused read's board is all zero.
pub fn read(file: &[u8]) -> Reading
    ensures read_value { told result.outcome result.board ≡ read_says file.now }
    ensures board_kept { result.board ≡ read_keeps file.now }
{
    read_from(begin(file))
}

// Reads the board file whose trailer starts at a place; past the last place for one, the whole file. A refused read's board is all zero.
pub fn read_at(file: &[u8], place: usize) -> Reading
    ensures read_value { told result.outcome result.board ≡ read_says (file_at file.now place) }
    ensures board_kept { result.board ≡ read_keeps (file_at file.now place) }
{
    let last = trailer_place(file);
    if last <= place {
        return read_whole(file);
    }
    let end = place + TRAILER;
    read_whole(&file[..end])
}

// Where the trailer starts, 0 where the file is shorter.
pub fn trailer_place(file: &[u8]) -> usize
    ensures { result ≡ trailer file.now }
{
    file.len().saturating_sub(TRAILER)
}

// Reads a whole file.
fn read_whole(file: &[u8]) -> Reading
    ensures read_value { told result.outcome result.board ≡ read_says file.now }
    ensures board_kept { result.board ≡ read_keeps file.now }
{
    let outcome = file_refuses(file);
    let Ok(()) = outcome else {
        let zeros = zero_board();
        return Reading {
            outcome,
            board: zeros,
        };
    };
    let board = board_in(file);
    Reading { outcome, board }
}

// Counts the cells and the rows of a file's board.
pub fn board_counts(file: &[u8]) -> Result<Counts, Refusal>
    ensures { told_counts result ≡ counts_say file.now }
{
    let Reading { outcome, board } = read(file);
    // The project's form for this: `let .. else` and not `?`.
    let Ok(()) = outcome else {
        return Err(outcome.unwrap_err());
    };
    Ok(Counts {
        cells: board.cells,
        rows: board.rows,
    })
}

// What stands for a number for no: a refusal for its own, a byte for itself. It is Copy, so no &mut goes in with it.
pub trait Numbered: Copy {
    ghost number_for_no: { Self → ℕ };

    fn number_for_no(self) -> u8
        ensures { result ≡ number_for_no self };
}

impl Numbered for Refusal {
    ghost number_for_no = { number_of };

    fn number_for_no(self) -> u8 {
        Refusal::number(self)
    }
}

impl Numbered for u8 {
    ghost number_for_no = { λ byte. byte };

    fn number_for_no(self) -> u8 {
        self
    }
}

// The number for no, or 0, as the exports answer it.
pub fn refusal_of<E: Numbered>(outcome: Result<(), E>) -> u8
    ensures { result ≡ refusal_by E.number_for_no outcome }
{
    match outcome {
        Ok(()) => 0,
        Err(error) => error.number_for_no(),
    }
}

// The byte at a place, and the numbers of two and four bytes that start there. The file and the place stand apart: a row is read at
// several distances from its place, and a struct would be made anew for each.
fn byte_at(file: &[u8], at: usize) -> usize
    requires { at < length file.now }
    ensures { (result ≡ byte file.now at) × (result < 256) }
{
    usize::from(file[at])
}

fn two_at(file: &[u8], at: usize) -> usize
    requires { at + 1 < length file.now }
    ensures { (result ≡ two file.now at) × (result < 65536) }
{
    usize::from(u16::from_le_bytes([file[at], file[at + 1]]))
}

fn four_at(file: &[u8], at: usize) -> u32
    requires { at + 3 < length file.now }
    ensures { result ≡ four file.now at }
{
    u32::from_le_bytes([file[at], file[at + 1], file[at + 2], file[at + 3]])
}

// How many cells and how many rows the trailer says. That a file has one is asked here and of two tests: a struct that held it would
// be made by each of its three callers.
fn cells_in(file: &[u8]) -> usize
    requires { 6 ≤ length file.now }
    ensures { (result ≡ cells_in file.now) × (result < 256) }
{
    byte_at(file, file.len() - TRAILER + 2)
}

fn rows_in(file: &[u8]) -> usize
    requires { 6 ≤ length file.now }
    ensures { (result ≡ rows_in file.now) × (result < 256) }
{
    byte_at(file, file.len() - TRAILER + 3)
}

// Whether a file may have so many bytes.
fn size_refuses(size: usize) -> Result<(), Refusal>
    ensures { refusal_in result ≡ size_refuses size }
{
    if size < TRAILER || FILE < size {
        return Err(Refusal::Size);
    }
    Ok(())
}

// Whether it is the mark.
fn mark_refuses(mark: usize) -> Result<(), Refusal>
    ensures { refusal_in result ≡ mark_refuses mark }
{
    if mark != MARK {
        return Err(Refusal::Mark);
    }
    Ok(())
}

// Whether the rows of a board of so many cells can start there, where the trailer is at `end`.
fn start_refuses(start: usize, cells: usize, end: usize) -> Result<(), Refusal>
    requires { cells < 256 }
    ensures { refusal_in result ≡ start_refuses start cells end }
{
    if start != 4 * cells || end < start {
        return Err(Refusal::Start);
    }
    Ok(())
}

// What the trailer is refused for.
#[tactic(auto, unfolding(crate::specs::Reading::trailer_refuses))]
fn trailer_refuses(file: &[u8]) -> Result<(), Refusal>
    requires { 6 ≤ length file.now }
    ensures { refusal_in result ≡ trailer_refuses file.now }
{
    let end = trailer_place(file);
    let cells = cells_in(file);
    mark_refuses(two_at(file, end + 4))?;
    sizes_refuse(cells, rows_in(file))?;
    start_refuses(two_at(file, end), cells, end)
}

// The row at a place.
fn row_at(file: &[u8], at: usize) -> Row
    requires { (row_end file.now at ≤ length file.now) × (byte file.now at ≤ row_cells) }
    ensures { result ≡ row_in file.now at }
{
    let len = byte_at(file, at);
    let low = two_at(file, at + 1);
    let high = two_at(file, at + 3);
    let mut names: [usize; ROW_CELLS] = [0; ROW_CELLS];
    let mut weights: [u8; ROW_CELLS] = [0; ROW_CELLS];
    for k in 0..len {
        names[k] = byte_at(file, at + 5 + 2 * k);
        weights[k] = file[at + 6 + 2 * k];
    }
    Row {
        len,
        low,
        high,
        names,
        weights,
    }
}

// Where the row at a place ends.
fn row_end(file: &[u8], at: usize) -> usize
    requires { at < length file.now }
    ensures { result ≡ row_end file.now at }
{
    at + 5 + 2 * byte_at(file, at)
}

// The first refusal of the row at a place.
#[tactic(auto, unfolding(crate::specs::Reading::row_in_refuses))]
fn row_refuses(file: &[u8], at: usize) -> Result<(), Refusal>
    requires { at + 6 ≤ length file.now }
    ensures { refusal_in result ≡ row_in_refuses file.now at }
{
    let end = trailer_place(file);
    if end < at + 5 {
        return Err(Refusal::End);
    }
    let len = byte_at(file, at);
    head_refuses(len, two_at(file, at + 1), two_at(file, at + 3))?;
    if end < row_end(file, at) {
        return Err(Refusal::End);
    }
    let row = row_at(file, at);
    let names = &row.names[..len];
    pairs_refuse(cells_in(file), names)
}

// Whether the rows, which end at a place, end at the trailer.
fn rest_refuses(at: usize, end: usize) -> Result<(), Refusal>
    ensures { refusal_in result ≡ rest_refuses at end }
{
    if at != end {
        return Err(Refusal::End);
    }
    Ok(())
}

// The first refusal of the rows.
#[tactic(auto, using(crate::proofs::Steps::rows_err))]
fn rows_refuse(file: &[u8]) -> Result<(), Refusal>
    requires { 4 * cells_in file.now + 6 ≤ length file.now }
    ensures { refusal_in result ≡ rows_refuse file.now }
{
    let rows = rows_in(file);
    let mut at = 4 * cells_in(file);
    for i in 0..rows {
        row_refuses(file, at)?;
        at = row_end(file, at);
    }
    let end = trailer_place(file);
    rest_refuses(at, end)
}

// The first refusal of a file.
#[tactic(auto, unfolding(crate::specs::Reading::file_refuses))]
fn file_refuses(file: &[u8]) -> Result<(), Refusal>
    ensures { refusal_in result ≡ file_refuses file.now }
{
    size_refuses(file.len())?;
    trailer_refuses(file)?;
    rows_refuse(file)
}

// The domains of a file that is not refused.
fn domains_in(file: &[u8], cells: usize) -> [u32; BOARD_CELLS]
    requires { (cells ≤ board_cells) × (4 * cells ≤ length file.now) }
    ensures { result ≡ filled (domain_in file.now) 0 cells board_cells }
{
    let mut domains: [u32; BOARD_CELLS] = [0; BOARD_CELLS];
    for i in 0..cells {
        domains[i] = four_at(file, 4 * i);
    }
    domains
}

// Its rows.
fn lines_in(file: &[u8], cells: usize, rows: usize) -> [Row; BOARD_ROWS]
    requires { (file_refuses file.now ≡ 0) × (cells ≡ cells_in file.now) × (rows ≡ rows_in file.now) }
    ensures { result ≡ lines_in file.now }
{
    let zeros = zero_row();
    let mut lines: [Row; BOARD_ROWS] = [zeros; BOARD_ROWS];
    let mut at = 4 * cells;
    for i in 0..rows {
        lines[i] = row_at(file, at);
        at = row_end(file, at);
    }
    lines
}

// Its board.
fn board_in(file: &[u8]) -> Board
    requires { file_refuses file.now ≡ 0 }
    ensures { result ≡ board_in file.now }
{
    let cells = cells_in(file);
    let rows = rows_in(file);
    let domains = domains_in(file, cells);
    let lines = lines_in(file, cells, rows);
    Board {
        cells,
        domains,
        rows,
        lines,
    }
}
