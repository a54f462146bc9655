// The library for programs in other languages: every public call under a plain name, its answer a struct of numbers.
// In each answer `refused` is the number for no, or 0, and a field that the answer doesn't use is 0.
#![tactic(auto)]

ghost use Rattle.std.specs.Prelude.{◌≡◌};
ghost use Rattle.fraction.specs.Rank.{told as rankTold, rank_says};
ghost use Rattle.told.specs.Told.{told};
ghost use Rattle.row.specs.Answers.{total_says, count_says, strike_says, tables, row_leaves, count_leaves, strike_leaves};
ghost use Rattle.reader.specs.File.{file_at, trailer};
ghost use Rattle.reader.specs.Reading.{read_says, refusal_of, told_counts, counts_say};
ghost use Rattle.writer.specs.Writing.{write_says, write_leaves};
ghost use Rattle.choose.specs.Advice.{told as choiceTold};
ghost use Rattle.advice.specs.Advising.{told as adviseTold, advise_says, rooms, advise_leaves};
ghost use Rattle.search.specs.Finishing.{told as searchTold, search_says, lent, search_leaves};
ghost use Rattle.tanglepunt.specs.Flat.{number_of, order_of, counts_of, board_with, reading_of, advice_of, chosen_of, plain_of, ending_of};

use advice::{Advised, advise};
use board::Board;
use choose::Advice as Choice;
use fraction::inner::share;
use fraction::rank;
use reader::{
    Counts as Counted, Reading as Readout, board_counts, read, read_at, refusal_of, trailer_place,
};
use row::{count, strike, total};
use search::{Ending as Ended, search};
use settle::Tally;
use std::cmp::Ordering;
use told::Refusal;
use writer::write;

// A number: a total, a count, how many values were struck, or the length of a file.
#[repr(C)]
#[derive(Clone, Copy)]
pub struct Number {
    pub refused: u8,
    pub number: u64,
}

// How two fractions stand: order is 0 where the first is below, 1 where they are equal, 2 where it is above.
#[repr(C)]
#[derive(Clone, Copy)]
pub struct Order {
    pub refused: u8,
    pub order: u8,
}

// How many cells and rows a board has.
#[repr(C)]
#[derive(Clone, Copy)]
pub struct Counts {
    pub refused: u8,
    pub cells: usize,
    pub rows: usize,
}

// A board; all zero where the file is refused.
#[repr(C)]
#[derive(Clone, Copy)]
pub struct Reading {
    pub refused: u8,
    pub board: Board,
}

// What is advised: kind is 0 for Dead, 1 for Settled, 2 for Advise.
#[repr(C)]
#[derive(Clone, Copy)]
pub struct Advice {
    pub refused: u8,
    pub kind: u8,
    pub passes: usize,
    pub struck: usize,
    pub cell: usize,
    pub value: usize,
    pub row: usize,
    pub count: u64,
    pub total: u64,
    pub share: f64,
}

// How a search ended: ending is 0 for Solved, 1 for None, 2 for Spent.
#[repr(C)]
#[derive(Clone, Copy)]
pub struct Ending {
    pub refused: u8,
    pub ending: u8,
}

// Ranks c1 / t1 against c2 / t2 as exact fractions.
#[unsafe(no_mangle)]
pub extern "C" fn tanglepunt_rank(c1: u64, t1: u64, c2: u64, t2: u64) -> Order
    ensures { result ≡ order_of (rank_says c1 t1 c2 t2) }
{
    Order::from(rank(c1, t1, c2, t2))
}

// The total: how many fillings of the row are good.
#[unsafe(no_mangle)]
pub extern "C" fn tanglepunt_total(
    weights: &[u8],
    domains: &[u32],
    low: usize,
    high: usize,
    forward: &mut [u64],
    backward: &mut [u64],
) -> Number
    ensures value { result ≡ number_of (total_says weights.now domains.now low high forward.old backward.old) }
    ensures backward_after { tables forward.new backward.new ≡ row_leaves weights.now domains.now low high forward.old backward.old }
{
    Number::from(total(weights, domains, low, high, forward, backward))
}

// The count of a place and a value: how many good fillings have that value in that cell.
#[unsafe(no_mangle)]
pub extern "C" fn tanglepunt_count(
    weights: &[u8],
    domains: &[u32],
    low: usize,
    high: usize,
    place: usize,
    value: usize,
    forward: &mut [u64],
    backward: &mut [u64],
) -> Number
    ensures value { result ≡ number_of (count_says weights.now domains.now low high place value forward.old backward.old) }
    ensures backward_after { tables forward.new backward.new ≡ count_leaves weights.now domains.now low high place value forward.old backward.old }
{
    Number::from(count(weights, domains, low, high, place, value, forward, backward))
}

// Strikes from the domains every value whose count is 0, and answers how many.
#[unsafe(no_mangle)]
pub extern "C" fn tanglepunt_strike(
    weights: &[u8],
    domains: &mut [u32],
    low: usize,
    high: usize,
    forward: &mut [u64],
    backward: &mut [u64],
) -> Number
    ensures value { result ≡ number_of (strike_says weights.now domains.old low high forward.old backward.old) }
    ensures backward_after { tables forward.new backward.new ≡ row_leaves weights.now domains.old low high forward.old backward.old }
    ensures domains_after { domains.new ≡ strike_leaves weights.now domains.old low high forward.old backward.old }
{
    Number::from(strike(weights, domains, low, high, forward, backward))
}

// Where a reader of the file begins: the place of its trailer.
#[unsafe(no_mangle)]
pub extern "C" fn tanglepunt_begin(file: &[u8]) -> usize
    ensures { result ≡ trailer file.now }
{
    trailer_place(file)
}

// Reads a board file.
#[unsafe(no_mangle)]
pub extern "C" fn tanglepunt_read(file: &[u8]) -> Reading
    ensures { result ≡ reading_of (read_says file.now) }
{
    Reading::from(read(file))
}

// Reads the board file whose trailer starts at a place; past the last place for one, the whole file.
#[unsafe(no_mangle)]
pub extern "C" fn tanglepunt_read_at(file: &[u8], place: usize) -> Reading
    ensures { result ≡ reading_of (read_says (file_at file.now place)) }
{
    Reading::from(read_at(file, place))
}

// How many cells and rows the board of a file has.
#[unsafe(no_mangle)]
pub extern "C" fn tanglepunt_board_counts(file: &[u8]) -> Counts
    ensures { result ≡ counts_of (counts_say file.now) }
{
    Counts::from(board_counts(file))
}

// Writes a board file at the front of the room, and answers its length.
#[unsafe(no_mangle)]
pub extern "C" fn tanglepunt_write(board: Board, room: &mut [u8]) -> Number
    ensures value { result ≡ number_of (write_says board room.old) }
    ensures room_after { room.new ≡ write_leaves board room.old }
{
    Number::from(write(board, room))
}

// Settles the board of a file in the room and advises a move on it.
#[unsafe(no_mangle)]
pub extern "C" fn tanglepunt_advise(
    file: &[u8],
    room: &mut [u32],
    forward: &mut [u64],
    backward: &mut [u64],
) -> Advice
    ensures value { result ≡ advice_of (advise_says file.now room.old forward.old backward.old) }
    ensures backward_after { rooms room.new forward.new backward.new ≡ advise_leaves file.now room.old forward.old backward.old }
{
    Advice::from(advise(file, room, forward, backward))
}

// Searches the board of a file for a filling, with so many choices allowed; choices then holds those that remain.
#[unsafe(no_mangle)]
pub extern "C" fn tanglepunt_search(
    file: &[u8],
    choices: &mut u64,
    room: &mut [u32],
    stack: &mut [u32],
    forward: &mut [u64],
    backward: &mut [u64],
) -> Ending
    ensures value { result ≡ ending_of (search_says file.now choices.old room.old stack.old forward.old backward.old) }
    ensures backward_after { lent choices.new room.new stack.new forward.new backward.new ≡ search_leaves file.now choices.old room.old stack.old forward.old backward.old }
{
    Ending::from(search(file, choices, room, stack, forward, backward))
}

// Each of these turns an answer into its struct.
impl From<Result<Ordering, Refusal>> for Order {
    ghost from_gives = { λ ranking order. order ≡ order_of (rankTold ranking) };

    fn from(ranking: Result<Ordering, Refusal>) -> Order {
        match ranking {
            Ok(Ordering::Less) => Order {
                refused: 0,
                order: 0,
            },
            Ok(Ordering::Equal) => Order {
                refused: 0,
                order: 1,
            },
            Ok(Ordering::Greater) => Order {
                refused: 0,
                order: 2,
            },
            Err(refusal) => Order {
                refused: refusal.number(),
                order: 0,
            },
        }
    }
}

impl From<Result<u64, Refusal>> for Number {
    ghost from_gives = { λ answer number. number ≡ number_of (told answer) };

    fn from(answer: Result<u64, Refusal>) -> Number {
        match answer {
            Ok(number) => Number { refused: 0, number },
            Err(refusal) => Number {
                refused: refusal.number(),
                number: 0,
            },
        }
    }
}

// A file's length.
impl From<Result<usize, Refusal>> for Number {
    ghost from_gives = { λ written number. number ≡ number_of (told written) };

    fn from(written: Result<usize, Refusal>) -> Number {
        Number::from(written.map(|size| size as u64))
    }
}

impl From<Readout> for Reading {
    ghost from_gives = { λ readout reading. reading ≡ board_with (refusal_of readout.outcome) readout.board };

    fn from(readout: Readout) -> Reading {
        let Readout { outcome, board } = readout;
        Reading {
            refused: refusal_of(outcome),
            board,
        }
    }
}

impl From<Result<Counted, Refusal>> for Counts {
    ghost from_gives = { λ counted counts. counts ≡ counts_of (told_counts counted) };

    fn from(counted: Result<Counted, Refusal>) -> Counts {
        match counted {
            Ok(Counted { cells, rows }) => Counts {
                refused: 0,
                cells,
                rows,
            },
            Err(refusal) => Counts {
                refused: refusal.number(),
                cells: 0,
                rows: 0,
            },
        }
    }
}

impl From<Result<Advised, Refusal>> for Advice {
    ghost from_gives = { λ answer advice. advice ≡ advice_of (adviseTold answer) };

    fn from(answer: Result<Advised, Refusal>) -> Advice {
        match answer {
            Ok(Advised { tally, advice }) => chosen_of(tally, advice),
            Err(refusal) => plain(refusal.number(), 0, 0, 0),
        }
    }
}

impl From<Result<Ended, Refusal>> for Ending {
    ghost from_gives = { λ answer ending. ending ≡ ending_of (searchTold answer) };

    fn from(answer: Result<Ended, Refusal>) -> Ending {
        match answer {
            Ok(Ended::Solved) => Ending {
                refused: 0,
                ending: 0,
            },
            Ok(Ended::None) => Ending {
                refused: 0,
                ending: 1,
            },
            Ok(Ended::Spent) => Ending {
                refused: 0,
                ending: 2,
            },
            Err(refusal) => Ending {
                refused: refusal.number(),
                ending: 0,
            },
        }
    }
}

fn chosen_of(tally: Tally, choice: Choice) -> Advice
    ensures { result ≡ chosen_of tally.passes tally.struck (choiceTold choice) }
{
    let Tally { passes, struck } = tally;
    match choice {
        Choice::Dead => plain(0, 0, passes, struck),
        Choice::Settled => plain(0, 1, passes, struck),
        Choice::Advise {
            cell,
            value,
            row,
            count,
            total,
            share,
        } => Advice {
            refused: 0,
            kind: 2,
            passes,
            struck,
            cell,
            value,
            row,
            count,
            total,
            share,
        },
    }
}

// An advice without a move. The share of 0 in 1 is the double 0.
fn plain(refused: u8, kind: u8, passes: usize, struck: usize) -> Advice
    ensures { result ≡ plain_of refused kind passes struck }
{
    Advice {
        refused,
        kind,
        passes,
        struck,
        cell: 0,
        value: 0,
        row: 0,
        count: 0,
        total: 0,
        share: share(0, 1),
    }
}
