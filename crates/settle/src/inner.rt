// Settling for the floors above, which have made sure that the board is sound and that the room lent holds its domains.
ghost use Rattle.std.specs.Prelude.{◌≡◌, ◌+◌, ◌≤◌, length};
ghost use Rattle.listing.specs.Listing.{onto};
ghost use Rattle.counting.specs.Counting.{size};
ghost use Rattle.board.specs.Sound.{SoundLine, SoundBoard};
ghost use Rattle.settling.specs.Settling.{Inside, gather, scatter, visit, pass, settle};
ghost use Rattle.settling.specs.Boards.{row_of, rows_of, settle_room};
ghost use Rattle.settle.specs.Settle.{tally_of, board_values};

use crate::Tally;
use board::{Board, Row};
use sizes::ROW_CELLS;

// The domains of the named cells.
#[tactic(auto, using(settling::specs::Cells::gather_only))]
pub fn gather_row(domains: &[u32], names: &[usize], part: &mut [u32])
    requires { (length part.old ≡ length names.now) × Inside (length domains.now) names.now }
    ensures { part.new ≡ gather domains.now names.now }
{
    for (p, cell) in names.iter().enumerate() {
        part[p] = domains[*cell];
    }
}

// Such domains put back, by place: a zip of names and part is slower.
#[tactic(auto, using(settling::specs::Cells::scatter_next, settling::specs::Cells::scatter_end))]
fn scatter_row(domains: &mut [u32], names: &[usize], part: &[u32])
    requires { (length part.now ≡ length names.now) × Inside (length domains.old) names.now }
    ensures { domains.new ≡ scatter names.now part.now domains.old }
{
    for (p, cell) in names.iter().enumerate() {
        domains[*cell] = part[p];
    }
}

// A visit to a row. How many values it struck.
fn visit_row(domains: &mut [u32], row: &Row) -> usize
    requires { SoundLine (length domains.old) row.now }
    ensures domains_after { domains.new ≡ visit (row_of row.now) domains.old }
    ensures size_kept { result + size domains.new ≡ size domains.old }
{
    let names = &row.names[..row.len];
    let weights = &row.weights[..row.len];
    let mut room = [0; ROW_CELLS];
    let part = &mut room[..row.len];
    gather_row(domains, names, part);
    let struck = reach::inner::strike(weights, part, row.low, row.high);
    scatter_row(domains, names, part);
    struck
}

// A pass over the board's rows, with the tally of what came before it.
#[tactic(auto, using(settling::proofs::BoardLaws::pass_none, settling::proofs::BoardLaws::pass_next))]
fn pass_rows(domains: &mut [u32], board: &Board, before: Tally) -> Tally
    requires { SoundBoard board.now × (length domains.old ≡ board.now.cells) × (before.struck + size domains.old ≤ board_values) × (before.passes ≤ board_values) }
    ensures domains_after { domains.new ≡ pass (rows_of board.now) domains.old }
    ensures passes_counted { result.passes ≡ before.passes + 1 }
    ensures struck_grows { before.struck ≤ result.struck }
    ensures size_kept { result.struck + size domains.new ≡ before.struck + size domains.old }
{
    let mut tally = before;
    for i in 0..board.rows {
        let row = &board.lines[i];
        let struck = visit_row(domains, row);
        tally = tally.after_row(struck);
    }
    tally.after_pass()
}

// Passes until one strikes nothing.
fn settle_rows(domains: &mut [u32], board: &Board) -> Tally
    requires { SoundBoard board.now × (length domains.old ≡ board.now.cells) }
    ensures domains_after { domains.new ≡ (settle (rows_of board.now) domains.old).left }
    ensures value { result ≡ tally_of (settle (rows_of board.now) domains.old) }
{
    let mut tally = Tally {
        passes: 0,
        struck: 0,
    };
    loop {
        let before = tally;
        tally = pass_rows(domains, board, before);
        if tally.struck == before.struck {
            return tally;
        }
    }
}

// Settles the domains that the room lent has at its front, one for each cell of the board; the rest of the room is unchanged.
pub fn settle(board: Board, room: &mut [u32]) -> Tally
    requires { SoundBoard board × (board.cells ≤ length room.old) }
    ensures room_after { room.new ≡ onto (settle_room board room.old).left room.old }
    ensures value { result ≡ tally_of (settle_room board room.old) }
{
    settle_rows(&mut room[..board.cells], &board)
}
