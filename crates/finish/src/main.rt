// Searches the board file on standard input for a filling, with the number of choices that its argument spells, and prints how that
// ended and what the domain room then holds.
#![tactic(auto)]

ghost use Rattle.std.specs.Prelude.{◌≡◌, OnOk};
ghost use Rattle.std.specs.Io.KnownBytes.{Appends};
ghost use Rattle.finish.specs.Finished.{word_text, finish_text};
ghost use Rattle.search.specs.Finishing.{word_by};

use digits::number_of;
use inputs::{arg, read_full};
use lines::{cells, ended, refused, text};
use reader::read;
use search::{Ending, search};
use sizes::{BOARD_CELLS, FILE, STACK, TABLE};
use std::io;
use std::io::Write;

// A byte more than the longest file: an input that fills it is too long, and refused as such.
const INPUT: usize = FILE + 1;

// Room for the argument; a longer one is taken for none.
const WORD: usize = 4096;

fn main(rt: HostRuntime) -> io::Result<()> {
    let mut word = [0; WORD];
    let n = arg(&rt, 1, &mut word);
    let mut input = [0; INPUT];
    let size = read_full(&mut rt.reader(), &mut input)?;
    let mut out = io::writer(&rt);
    finish(&mut out, &input[..size], number_of(&word[..n]))
}

fn finish<W: Write>(out: &mut W, file: &[u8], given: u64) -> io::Result<()>
    ensures { OnOk result (Appends (W.contents out.old) (W.contents out.new) (finish_text file.now given)) }
{
    let mut left = given;
    let mut room = [0; BOARD_CELLS];
    let mut stack = [0; STACK];
    let mut forward = [0; TABLE];
    let mut backward = [0; TABLE];
    let ending = match search(
        file,
        &mut left,
        &mut room,
        &mut stack,
        &mut forward,
        &mut backward,
    ) {
        Ok(ending) => ending,
        Err(refusal) => return refused(out, refusal.number()),
    };
    ended(out, word_of(ending), given, left)?;
    text(out, b"\n")?;
    cells(out, read(file).board.cells, room)
}

// The word for an ending.
fn word_of(ending: Ending) -> &'static [u8]
    ensures { result.now ≡ word_text (word_by ending) }
{
    match ending {
        Ending::Solved => b"SOLVED",
        Ending::None => b"NONE",
        Ending::Spent => b"SPENT",
    }
}
