// Finishing a board by search. Any input is taken; what is not a board file, or too little room, is refused.
#![tactic(auto)]

pub mod inner;
mod purse;

ghost use Rattle.std.specs.Prelude.{◌≡◌, ◌≤◌, OnOk};
ghost use Rattle.told.specs.Told.{refusal_in};
ghost use Rattle.sizes.specs.Sizes.{board_cells, table_size, stack_size};
ghost use Rattle.search.specs.Finishing.{told, lent_refuses, search_says, lent, search_leaves};

use advice::inner::rooms_refuse;
use choose::Tables;
use inner::finish;
use reader::{Reading, read};
use sizes::STACK;
use told::Refusal;

// How a search ends. After Solved the filling stands in the domain room.
#[derive(Clone, Copy, Debug, PartialEq, Eq)]
pub enum Ending {
    Solved,
    None,
    Spent,
}

// Searches the board of a file for a filling, with so many choices allowed, and counts them down to what remains. The room then has at its
// front the filling, one domain of one value for each cell, or else the settled domains.
#[tactic(auto, using(advice::specs::StepLaws::said_sound))]
pub fn search(
    file: &[u8],
    choices: &mut u64,
    room: &mut [u32],
    stack: &mut [u32],
    forward: &mut [u64],
    backward: &mut [u64],
) -> Result<Ending, Refusal>
    ensures result_value { told result ≡ search_says file.now choices.old room.old stack.old forward.old backward.old }
    ensures lent_after { lent choices.new room.new stack.new forward.new backward.new ≡ search_leaves file.now choices.old room.old stack.old forward.old backward.old }
{
    lent_refuses(forward.len(), backward.len(), room.len(), stack.len())?;
    let Reading { outcome, board } = read(file);
    // The project's form for this: `let .. else` and not `?`.
    let Ok(()) = outcome else {
        return Err(outcome.unwrap_err());
    };
    let mut tables = Tables { forward, backward };
    let ended = finish(board, *choices, room, stack, &mut tables);
    *choices = ended.purse.left;
    Ok(ended.ending)
}

// Whether tables, a room and a stack room of so many entries are too short; the stack room is tested last.
fn lent_refuses(forward: usize, backward: usize, room: usize, stack: usize) -> Result<(), Refusal>
    ensures refusal { refusal_in result ≡ lent_refuses forward backward room stack }
    ensures long { OnOk result ((table_size ≤ forward) × (table_size ≤ backward) × (board_cells ≤ room) × (stack_size ≤ stack)) }
{
    rooms_refuse(forward, backward, room)?;
    if stack < STACK {
        return Err(Refusal::Stack);
    }
    Ok(())
}
