// The search for the floors above, which have made sure that the board is sound and that the rooms lent are long enough.
ghost use Rattle.std.specs.Prelude.{◌≡◌, ◌+◌, ◌-◌, ◌*◌, ◌^◌, ◌<◌, ◌≤◌, length, get_or};
ghost use Rattle.sizes.specs.Sizes.{values, board_cells, stack_size};
ghost use Rattle.board.specs.Sound.{SoundBoard};
ghost use Rattle.settling.specs.Boards.{rows_of};
ghost use Rattle.searching.specs.Searching.{lowest, lowests, cut_to, removed, searched};
ghost use Rattle.searching.specs.Promised.{Playable};
ghost use Rattle.advice.specs.Advising.{Cleared, settled_of};
ghost use Rattle.search.specs.Finishing.{domains_after};
ghost use Rattle.search.specs.Stack.{level, saved, Roomy, trying, shown, Ended as Comes, Came, Stepped, Ran, Finished};

use crate::Ending;
use crate::purse::Purse;
use advice::inner::{look, settled, store};
use beat::Ties;
use board::Board;
use choose::{Advice, Tables};
use sizes::{BOARD_CELLS, STACK};

// How a search ended, and what is left of its purse.
#[derive(Clone, Copy)]
pub struct Ended {
    pub ending: Ending,
    pub purse: Purse,
}

// Copies domains, place by place: of `copy_from_slice` the compiler makes a call of `memmove` here, which a caller in C need not have.
fn copy(to: &mut [u32], from: &[u32])
    requires { length to.old ≡ length from.now }
    ensures { to.new ≡ from.now }
{
    for i in 0..to.len() {
        to[i] = from[i];
    }
}

// The domain cut to its lowest value, which of an empty one is 0.
#[tactic(auto, using(crate::specs::StackLaws::lowest_bit, crate::specs::StackLaws::no_lowest_bit))]
fn cut_to_lowest(domain: u32) -> u32
    ensures { result ≡ 2 ^ lowest domain }
{
    if domain == 0 {
        1
    } else {
        1 << domain.trailing_zeros()
    }
}

// Each domain cut to its lowest value.
fn cut_all_to_lowest(domains: &mut [u32])
    ensures { domains.new ≡ lowests domains.old }
{
    for domain in domains.iter_mut() {
        *domain = cut_to_lowest(*domain);
    }
}

// The advice is followed in the domains; those without the advised value are put into the level.
fn follow(domains: &mut [u32], level: &mut [u32], cell: usize, value: usize)
    requires { (length level.old ≡ length domains.old) × (cell < length domains.old) × (value < values) × (2 ^ value ≤ get_or domains.old cell 0) }
    ensures { (domains.new ≡ cut_to domains.old cell value) × (level.new ≡ removed domains.old cell value) }
{
    let advised = 1 << value;
    copy(level, domains);
    level[cell] -= advised;
    domains[cell] = advised;
}

// The advice is followed; the domains without its value are saved as level h.
fn save(domains: &mut [u32], stack: &mut [u32], h: usize, cell: usize, value: usize)
    requires { (length domains.old ≤ board_cells) × (stack_size ≤ length stack.old) × (h < board_cells) × (cell < length domains.old) × (value < values) × (2 ^ value ≤ get_or domains.old cell 0) }
    ensures { (domains.new ≡ cut_to domains.old cell value) × (stack.new ≡ saved stack.old h (removed domains.old cell value)) }
{
    let n = domains.len();
    let at = BOARD_CELLS * h;
    follow(domains, &mut stack[at..at + n], cell, value);
}

// The domains saved as level h, taken back. The stack is lent by `&mut`, though it stays the same: of what a `&` out of a struct's
// `&mut` field shows, the check knows no more than the length afterwards.
fn restore(domains: &mut [u32], stack: &mut [u32], h: usize)
    requires { (length domains.old ≤ board_cells) × (stack_size ≤ length stack.old) × (h < board_cells) }
    ensures { (domains.new ≡ level (length domains.old) h stack.old) × (stack.new ≡ stack.old) }
{
    let n = domains.len();
    let at = BOARD_CELLS * h;
    copy(domains, &stack[at..at + n]);
}

// A search under way: what it still has to try are the domains and then the levels in use, last first. The levels lie one after another in
// the lent room, since a call allocates nothing. The tables are lent beside it, since of a struct in another struct the check doesn't know
// afterwards which rooms it held.
#[derive(Drop)]
struct Descent<'a> {
    board: &'a Board,
    purse: Purse,
    levels: usize,
    domains: &'a mut [u32],
    stack: &'a mut [u32],
    ghost sound: { SoundBoard board.now },
    ghost cells: { length domains.now ≡ board.now.cells },
    ghost stack_room: { stack_size ≤ length stack.now },
    ghost purse_fits: { purse.left + purse.followed < 2 ^ 64 },
}

impl Descent<'_> {
    // One look, and what follows from it: back to the last level saved, on from the advice, or the end.
    fn take_step(&mut self, tables: &mut Tables<'_>) -> Option<Ending>
        requires { Roomy (rows_of self.old.board.now) (length self.old.domains.now) (trying self.old.levels self.old.domains.now self.old.stack.now) }
        ensures stepped { Stepped (rows_of self.old.board.now) self.old.levels self.old.purse self.old.domains.now self.old.stack.now result self.new.levels self.new.purse self.new.domains.now self.new.stack.now }
        ensures same_board { self.new.board ≡ self.old.board }
        ensures same_rooms { (self.new.domains.ghost_name ≡ self.old.domains.ghost_name) × (self.new.stack.ghost_name ≡ self.old.stack.ghost_name) }
        ensures tables_after { Cleared tables.old tables.new }
    {
        // Ties go to the lowest value.
        match look(Ties::Lowest, *self.board, self.domains, tables).advice {
            Advice::Dead => {
                if self.levels == 0 {
                    return Some(Ending::None);
                }
                self.levels -= 1;
                restore(self.domains, self.stack, self.levels);
                None
            }
            Advice::Settled => {
                cut_all_to_lowest(self.domains);
                Some(Ending::Solved)
            }
            Advice::Advise { cell, value, .. } => {
                if !self.purse.take_choice() {
                    return Some(Ending::Spent);
                }
                save(self.domains, self.stack, self.levels, cell, value);
                self.levels += 1;
                None
            }
        }
    }

    // Steps until the search is over; it begins with no level in use.
    fn to_end(&mut self, tables: &mut Tables<'_>) -> Ending
        requires { (self.old.levels ≡ 0) × Playable (rows_of self.old.board.now) self.old.domains.now }
        ensures comes { Comes self.old.purse (searched (rows_of self.old.board.now) self.old.domains.now) result self.new.purse self.new.domains.now }
        ensures same_board { self.new.board ≡ self.old.board }
        ensures same_rooms { (self.new.domains.ghost_name ≡ self.old.domains.ghost_name) × (self.new.stack.ghost_name ≡ self.old.stack.ghost_name) }
        ensures tables_after { Cleared tables.old tables.new }
    {
        loop {
            if let Some(ending) = self.take_step(tables) {
                return ending;
            }
        }
    }
}

// The search from these domains, with so many choices; the stack is room for 64 levels.
fn descend(
    board: &Board,
    choices: u64,
    domains: &mut [u32],
    stack: &mut [u32],
    tables: &mut Tables<'_>,
) -> Ended
    requires { SoundBoard board.now × (length domains.old ≡ board.now.cells) × (stack_size ≤ length stack.old) }
    ensures comes { Came choices (searched (rows_of board.now) domains.old) result.ending result.purse domains.new }
    ensures tables_after { Cleared tables.old tables.new }
{
    let mut descent = Descent {
        board,
        purse: Purse {
            left: choices,
            followed: 0,
        },
        levels: 0,
        domains,
        stack,
    };
    let ending = descent.to_end(tables);
    Ended {
        ending,
        purse: descent.purse,
    }
}

// What stands in the domains in the end: the filling, or else the board's settled domains.
#[tactic(auto, using(crate::specs::RoomLaws::left_settled))]
fn leave(board: Board, ending: Ending, domains: &mut [u32])
    requires { SoundBoard board × (length domains.old ≡ board.cells) }
    ensures { domains.new ≡ domains_after (shown ending domains.old) (settled_of board).left }
{
    match ending {
        Ending::Solved => {}
        Ending::None | Ending::Spent => {
            settled(board, domains);
        }
    }
}

// The whole search, on slices of just the sizes that it takes.
fn run(
    board: &Board,
    choices: u64,
    domains: &mut [u32],
    stack: &mut [u32],
    tables: &mut Tables<'_>,
) -> Ended
    requires { SoundBoard board.now × (length domains.old ≡ board.now.cells) × (length stack.old ≡ stack_size) }
    ensures ran { Ran board.now choices result.ending result.purse domains.new stack.new }
    ensures tables_after { Cleared tables.old tables.new }
{
    store(*board, domains);
    let ended = descend(board, choices, domains, stack, tables);
    stack.fill(0);
    leave(*board, ended.ending, domains);
    ended
}

// The whole search, in the front of the domain room and of the stack room.
pub fn finish(
    board: Board,
    choices: u64,
    room: &mut [u32],
    stack: &mut [u32],
    tables: &mut Tables<'_>,
) -> Ended
    requires { SoundBoard board × (board_cells ≤ length room.old) × (stack_size ≤ length stack.old) }
    ensures finished { Finished board choices room.old stack.old result.ending result.purse room.new stack.new }
    ensures tables_after { Cleared tables.old tables.new }
{
    let cells = board.cells;
    run(
        &board,
        choices,
        &mut room[..cells],
        &mut stack[..STACK],
        tables,
    )
}
