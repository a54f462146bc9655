// Advice on a board file. Any input is taken; what is not a board file, or too little room, is refused.
#![tactic(auto)]

pub mod inner;

ghost use Rattle.std.specs.Prelude.{◌≡◌, ◌≤◌, length};
ghost use Rattle.sizes.specs.Sizes.{board_cells};
ghost use Rattle.listing.specs.Listing.{onto};
ghost use Rattle.board.specs.Sound.{SoundBoard};
ghost use Rattle.advice.specs.Advising.{Cleared, said_by, told, settled_of, said_of, advise_says, rooms, advise_leaves};

use beat::Ties;
use board::Board;
use choose::{Advice, Tables};
use inner::{look, rooms_refuse, store};
use reader::{Reading, read};
use settle::Tally;
use told::Refusal;

// What settling a board and choosing a move on it come to.
#[derive(Clone, Copy)]
pub struct Advised {
    pub tally: Tally,
    pub advice: Advice,
}

// Settles the board of a file and advises a move on it. The room then has the settled domains at its front, one for each cell.
#[tactic(auto, using(crate::specs::StepLaws::said_sound))]
pub fn advise(
    file: &[u8],
    room: &mut [u32],
    forward: &mut [u64],
    backward: &mut [u64],
) -> Result<Advised, Refusal>
    ensures result_value { told result ≡ advise_says file.now room.old forward.old backward.old }
    ensures rooms_after { rooms room.new forward.new backward.new ≡ advise_leaves file.now room.old forward.old backward.old }
{
    rooms_refuse(forward.len(), backward.len(), room.len())?;
    let Reading { outcome, board } = read(file);
    // The project's form for this: `let .. else` and not `?`.
    let Ok(()) = outcome else {
        return Err(outcome.unwrap_err());
    };
    let mut tables = Tables { forward, backward };
    Ok(advise_board(board, room, &mut tables))
}

// Settles a board in the front of the room and chooses a move on it; ties go to the lowest value.
fn advise_board(board: Board, room: &mut [u32], tables: &mut Tables<'_>) -> Advised
    requires { SoundBoard board × (board_cells ≤ length room.old) }
    ensures value { said_by result ≡ said_of board }
    ensures room_after { room.new ≡ onto (settled_of board).left room.old }
    ensures tables_after { Cleared tables.old tables.new }
{
    let cells = board.cells;
    let domains = &mut room[..cells];
    store(board, domains);
    look(Ties::Lowest, board, domains, tables)
}
