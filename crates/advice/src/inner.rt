// The steps of board calls, for the floors above.
ghost use Rattle.std.specs.Prelude.{◌≡◌, ◌≤◌, length, OnOk};
ghost use Rattle.told.specs.Told.{refusal_in};
ghost use Rattle.sizes.specs.Sizes.{board_cells, table_size};
ghost use Rattle.listing.specs.Listing.{onto};
ghost use Rattle.board.specs.Sound.{SoundBoard};
ghost use Rattle.settling.specs.Settling.{settle as settling};
ghost use Rattle.settling.specs.Boards.{rows_of};
ghost use Rattle.settle.specs.Settle.{tally_of};
ghost use Rattle.beat.specs.Beat.{ties_of};
ghost use Rattle.advice.specs.Advising.{Cleared, said_by, domains_of, settled_of, said_on, rooms_refuse};

use crate::Advised;
use beat::Ties;
use board::Board;
use choose::Tables;
use choose::inner::choose;
use settle::Tally;
use settle::inner::settle;
use sizes::{BOARD_CELLS, TABLE};
use told::Refusal;

// Whether tables and a room of so many entries are too short; the tables are tested first.
pub fn rooms_refuse(forward: usize, backward: usize, room: usize) -> Result<(), Refusal>
    ensures refusal { refusal_in result ≡ rooms_refuse forward backward room }
    ensures long { OnOk result ((table_size ≤ forward) × (table_size ≤ backward) × (board_cells ≤ room)) }
{
    if forward < TABLE || backward < TABLE {
        return Err(Refusal::Table);
    }
    if room < BOARD_CELLS {
        return Err(Refusal::Room);
    }
    Ok(())
}

// Settles a board in the room. Never inlined: its copies of the board are then no part of the frame of a search.
#[tactic(auto, using(crate::specs::StepLaws::settled_onto, crate::specs::StepLaws::settled_of_lem))]
#[inline(never)]
pub fn settled(board: Board, room: &mut [u32]) -> Tally
    requires { SoundBoard board × (board.cells ≤ length room.old) }
    ensures room_after { room.new ≡ onto (settled_of board).left room.old }
    ensures value { result ≡ tally_of (settled_of board) }
{
    store(board, room);
    settle(board, room)
}

// Stores a board's domains in the room.
#[tactic(auto, using(crate::specs::StepLaws::stored))]
pub fn store(board: Board, room: &mut [u32])
    requires { SoundBoard board × (board.cells ≤ length room.old) }
    ensures { room.new ≡ onto (domains_of board) room.old }
{
    let cells = board.cells;
    room[..cells].copy_from_slice(&board.domains[..cells]);
}

// Settles the domains, one for each cell, and chooses a move on them. Inlined: as a call of its own it holds two boards more on the stack.
#[tactic(auto, using(crate::specs::StepLaws::settles_whole, crate::specs::StepLaws::choosable))]
#[inline(always)]
pub fn look(ties: Ties, board: Board, domains: &mut [u32], tables: &mut Tables<'_>) -> Advised
    requires { SoundBoard board × (length domains.old ≡ board.cells) }
    ensures domains_after { domains.new ≡ (settling (rows_of board) domains.old).left }
    ensures value { said_by result ≡ said_on (ties_of ties) (rows_of board) domains.old }
    ensures tables_after { Cleared tables.old tables.new }
{
    let tally = settle(board, domains);
    let advice = choose(ties, board, domains, tables);
    Advised { tally, advice }
}
