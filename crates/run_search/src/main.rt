// Searches board files with numbers of choices, then two of them with rooms of other lengths, and prints what came of each.
// Arguments: FILE CHOICES, and so on in pairs.
#![tactic(auto)]

ghost use Rattle.std.specs.Prelude.{◌+◌, ◌-◌, ◌^◌, ◌≤◌, ◌<◌, length};
ghost use Rattle.std.specs.Io.{ReadsAtMost};
ghost use Rattle.sizes.specs.Sizes.{table_size, board_cells, stack_size};

use digits::number_of;
use inputs::{arg, arg_count, open_read, read_full};
use lines::{ended, values};
use reader::read;
use search::{Ending, search};
use sizes::{BOARD_CELLS, FILE, STACK, TABLE};
use std::io;
use std::io::Write;
use std::rt::{Env, Files};
use told::Refusal;

// A byte more than the longest file, so that what is too long shows.
const INPUT: usize = FILE + 1;

// What a room holds before it is lent, and how many entries it has past those that a search needs.
const FRESH: u32 = 85;

const MORE: usize = 4;

// Room for an argument; a longer one is taken for none.
const WORD: usize = 4096;

fn main(rt: HostRuntime) -> io::Result<()> {
    let mut out = io::writer(&rt);
    for pair in 0..arg_count(&rt) / 2 {
        try_pair(&rt, &mut out, 2 * pair + 1)?;
    }
    try_rooms(&rt, &mut out, b"example")?;
    try_rooms(&rt, &mut out, b"refused-7")
}

// Searches the file that argument i names, with the number of choices that the next one spells.
fn try_pair<R: Env + Files + Eprint, W: Write>(rt: &R, out: &mut W, i: usize) -> io::Result<()>
    requires { i < 2 ^ 64 - 1 }
{
    let mut name = [0; WORD];
    let n = arg(rt, i, &mut name);
    let mut word = [0; WORD];
    let m = arg(rt, i + 1, &mut word);
    let mut buffer = [0; INPUT];
    let size = read_file(rt, &name[..n], &mut buffer)?;
    out.write_all(&name[..n])?;
    try_choices(out, &buffer[..size], number_of(&word[..m]))
}

// Reads the file of that name, and answers how many bytes it put at the start of the buffer, none where it can't be opened.
fn read_file<R: Files + Eprint>(rt: &R, name: &[u8], buffer: &mut [u8]) -> io::Result<usize>
    ensures { ReadsAtMost result buffer.new }
{
    match open_read(rt, name)? {
        Some(mut file) => read_full(&mut file, buffer),
        None => Ok(0),
    }
}

fn try_choices<W: Write>(out: &mut W, file: &[u8], given: u64) -> io::Result<()> {
    let mut left = given;
    let mut room = [FRESH; BOARD_CELLS];
    let mut stack = [FRESH; STACK];
    let answer = search(
        file,
        &mut left,
        &mut room,
        &mut stack,
        &mut [0; TABLE],
        &mut [0; TABLE],
    );
    write!(out, " GIVEN {given}")?;
    say_answer(out, answer, given, left)?;
    say_cells(out, read(file).board.cells, room)?;
    writeln!(out)
}

fn say_answer<W: Write>(
    out: &mut W,
    answer: Result<Ending, Refusal>,
    given: u64,
    left: u64,
) -> io::Result<()> {
    match answer {
        Ok(Ending::Solved) => ended(out, b" SOLVED", given, left),
        Ok(Ending::None) => ended(out, b" NONE", given, left),
        Ok(Ending::Spent) => ended(out, b" SPENT", given, left),
        Err(refusal) => write!(out, " REFUSED {refusal} LEFT {left}"),
    }
}

// The cells of a board, neighbours with the same values together.
fn say_cells<W: Write>(out: &mut W, cells: usize, room: [u32; BOARD_CELLS]) -> io::Result<()> {
    let alike = room[..cells.min(BOARD_CELLS)].chunk_by(|a, b| a == b);
    for (k, group) in alike.enumerate() {
        match k {
            0 => write!(out, " CELLS")?,
            _ => write!(out, ",")?,
        }
        if 1 < group.len() {
            write!(out, " {} TIMES", group.len())?;
        }
        if let Some(domain) = group.first() {
            values(out, *domain)?;
        }
    }
    Ok(())
}

// How many entries of each room are lent.
#[derive(Clone, Copy)]
struct Lent {
    forward: usize,
    backward: usize,
    room: usize,
    stack: usize,
    ghost fits: { (forward ≤ table_size) × (backward ≤ table_size) × (room ≤ board_cells + 4) × (stack ≤ stack_size + 4) },
}

// Rooms just long enough, longer ones, each one short, and several short.
fn try_rooms<R: Files + Eprint, W: Write>(rt: &R, out: &mut W, name: &[u8]) -> io::Result<()> {
    let mut buffer = [0; INPUT];
    let size = read_file(rt, name, &mut buffer)?;
    let just = lengths(TABLE, TABLE, BOARD_CELLS, STACK);
    let rooms = [
        just,
        lengths(TABLE, TABLE, BOARD_CELLS + MORE, STACK + MORE),
        lengths(TABLE - 1, TABLE, BOARD_CELLS, STACK),
        lengths(TABLE, TABLE - 1, BOARD_CELLS, STACK),
        lengths(TABLE, TABLE, BOARD_CELLS - 1, STACK),
        lengths(TABLE, TABLE, BOARD_CELLS, STACK - 1),
        lengths(TABLE, TABLE, BOARD_CELLS - 1, STACK - 1),
        lengths(TABLE - 1, TABLE - 1, BOARD_CELLS - 1, STACK - 1),
        lengths(0, 0, 0, 0),
    ];
    for lent in rooms {
        lend(out, name, &buffer[..size], lent)?;
    }
    Ok(())
}

fn lengths(forward: usize, backward: usize, room: usize, stack: usize) -> Lent
    requires { (forward ≤ table_size) × (backward ≤ table_size) × (room ≤ board_cells + 4) × (stack ≤ stack_size + 4) }
{
    Lent {
        forward,
        backward,
        room,
        stack,
    }
}

// Searches a file with ten choices in so many entries of each room, and says what the domain room and the stack room then hold.
fn lend<W: Write>(out: &mut W, name: &[u8], file: &[u8], lent: Lent) -> io::Result<()> {
    let Lent {
        forward,
        backward,
        room,
        stack,
        ..
    } = lent;
    out.write_all(name)?;
    write!(
        out,
        " TABLES {forward} {backward} ROOM {room} STACK {stack},"
    )?;
    let mut left = 10;
    let mut domains = [FRESH; BOARD_CELLS + MORE];
    let mut levels = [FRESH; STACK + MORE];
    let answer = search(
        file,
        &mut left,
        &mut domains[..room],
        &mut levels[..stack],
        &mut [0; TABLE][..forward],
        &mut [0; TABLE][..backward],
    );
    say_answer(out, answer, 10, left)?;
    let zeros = count(&levels, STACK, 0);
    let kept = count(&levels, STACK + MORE, FRESH);
    write!(out, ", STACK ZEROS {zeros} KEPT {kept}")?;
    writeln!(
        out,
        ", ROOM KEPT {}",
        count(&domains, BOARD_CELLS + MORE, FRESH)
    )
}

// How many of a room's first n entries are this one. With a chain of `take` or a slice, `filter` and `count` the whole run takes two to two and a
// half times the instructions. The n stands beside the room: that a part of it can be lent was tried, and its bound did not close.
fn count(room: &[u32], n: usize, entry: u32) -> usize
    requires { n ≤ length room.now }
{
    let mut found: usize = 0;
    for i in 0..n {
        if room[i] == entry {
            found += 1;
        }
    }
    found
}
