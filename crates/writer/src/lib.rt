// Writes a board file: from any record to its bytes in lent room, or to why there is none.
#![tactic(auto)]

ghost use Rattle.std.specs.Prelude.{◌≡◌, [], ◌∷◌, ◌+◌, ◌*◌, ◌%◌, ◌≤◌, length};
ghost use Rattle.told.specs.Told.{told};
ghost use Rattle.sizes.specs.Sizes.{row_cells, board_cells, board_rows};
ghost use Rattle.board.specs.Refusals.{board_refuses};
ghost use Rattle.writer.specs.Bytes.{joined, two_bytes, four_bytes, row_bytes, domain_bytes, line_bytes, trailer_bytes, file_of};
ghost use Rattle.writer.specs.Steps.{ShortRows, Puts};
ghost use Rattle.writer.specs.Writing.{write_says, write_leaves};

use board::inner::board_refuses;
use board::{Board, MARK, Row};
use told::Refusal;

// Writes a board file at the front of the room, and answers the file's length. A refusal leaves the room as it was.
#[tactic(auto, unfolding(crate::specs::Writing::write_refuses))]
pub fn write(board: Board, room: &mut [u8]) -> Result<usize, Refusal>
    ensures result_value { told result ≡ write_says board room.old }
    ensures room_after { room.new ≡ write_leaves board room.old }
{
    board_refuses(board)?;
    let size = file_size(board);
    if room.len() < size {
        return Err(Refusal::WriterRoom);
    }
    let mut pen = Pen { room, at: 0 };
    pen.file(board);
    Ok(size)
}

// How many bytes the rows take.
fn rows_size(rows: &[Row]) -> usize
    requires { (length rows.now ≤ board_rows) × ShortRows rows.now (length rows.now) }
    ensures { result ≡ length (joined (line_bytes rows.now) (length rows.now)) }
{
    let mut size: usize = 0;
    for row in rows {
        size += 5 + 2 * row.len;
    }
    size
}

// How many bytes the file takes.
fn file_size(board: Board) -> usize
    requires { board_refuses board ≡ 0 }
    ensures { result ≡ length (file_of board) }
{
    let rows = &board.lines[..board.rows];
    4 * board.cells + rows_size(rows) + 6
}

// A room, and the place up to which it is written. What each method puts comes next; the rest of the room is left as it was.
#[derive(Drop)]
struct Pen<'a> {
    room: &'a mut [u8],
    at: usize,
}

impl<'a> Pen<'a> {
    fn put(&mut self, bytes: &[u8])
        requires { self.old.at + length bytes.now ≤ length self.old.room.now }
        ensures { Puts self.old bytes.now self.new }
    {
        let at = self.at;
        let end = at + bytes.len();
        self.room[at..end].copy_from_slice(bytes);
        self.at = end;
    }

    // A number's lowest byte.
    fn byte(&mut self, number: usize)
        requires { self.old.at + 1 ≤ length self.old.room.now }
        ensures { Puts self.old (number % 256 ∷ []) self.new }
    {
        self.put(&[(number % 256) as u8]);
    }

    // Its lowest two, the lower first.
    fn two(&mut self, number: usize)
        requires { self.old.at + 2 ≤ length self.old.room.now }
        ensures { Puts self.old (two_bytes number) self.new }
    {
        self.put(&((number % 65536) as u16).to_le_bytes());
    }

    fn four(&mut self, number: u32)
        requires { self.old.at + 4 ≤ length self.old.room.now }
        ensures { Puts self.old (four_bytes number) self.new }
    {
        self.put(&number.to_le_bytes());
    }

    fn domains(&mut self, domains: &[u32])
        requires { self.old.at + 4 * length domains.now ≤ length self.old.room.now }
        ensures { Puts self.old (joined (domain_bytes domains.now) (length domains.now)) self.new }
    {
        for domain in domains {
            self.four(*domain);
        }
    }

    fn row(&mut self, row: &Row)
        requires { (row.now.len ≤ row_cells) × (self.old.at + (5 + 2 * row.now.len) ≤ length self.old.room.now) }
        ensures { Puts self.old (row_bytes row.now) self.new }
    {
        self.byte(row.len);
        self.two(row.low);
        self.two(row.high);
        for k in 0..row.len {
            self.put(&[(row.names[k] % 256) as u8, row.weights[k]]);
        }
    }

    fn rows(&mut self, rows: &[Row])
        requires { ShortRows rows.now (length rows.now) × (self.old.at + length (joined (line_bytes rows.now) (length rows.now)) ≤ length self.old.room.now) }
        ensures { Puts self.old (joined (line_bytes rows.now) (length rows.now)) self.new }
    {
        for row in rows {
            self.row(row);
        }
    }

    fn trailer(&mut self, cells: usize, rows: usize)
        requires { (cells ≤ board_cells) × (self.old.at + 6 ≤ length self.old.room.now) }
        ensures { Puts self.old (trailer_bytes cells rows) self.new }
    {
        self.two(4 * cells);
        self.byte(cells);
        self.byte(rows);
        self.two(MARK);
    }

    fn file(&mut self, board: Board)
        requires { (board_refuses board ≡ 0) × (self.old.at + length (file_of board) ≤ length self.old.room.now) }
        ensures { Puts self.old (file_of board) self.new }
    {
        let domains = &board.domains[..board.cells];
        self.domains(domains);
        let rows = &board.lines[..board.rows];
        self.rows(rows);
        self.trailer(board.cells, board.rows);
    }
}
