// The lines that programs print, on a writer.
#![tactic(auto)]

ghost use Rattle.std.specs.Prelude.{OnOk, ◌≤◌, ◌<◌, [], cond, ltb};
ghost use Rattle.std.specs.Io.KnownBytes.{Appends};
ghost use Rattle.lines.specs.Lines.{named_text, refused_text, ended_text, value_text, values_text, cell_text, cells_text};
ghost use Rattle.sizes.specs.Sizes.{board_cells, values};

use sizes::{BOARD_CELLS, VALUES};
use std::io;
use std::io::Write;

pub fn text<W: Write>(out: &mut W, words: &[u8]) -> io::Result<()>
    ensures { OnOk result (Appends (W.contents out.old) (W.contents out.new) words.now) }
{
    out.write_all(words)
}

// A name and its number.
pub fn named<W: Write>(out: &mut W, name: &[u8], number: usize) -> io::Result<()>
    ensures { OnOk result (Appends (W.contents out.old) (W.contents out.new) (named_text name.now number)) }
{
    text(out, name)?;
    write!(out, "{number}")
}

// The line of a refusal.
pub fn refused<W: Write>(out: &mut W, number: u8) -> io::Result<()>
    ensures { OnOk result (Appends (W.contents out.old) (W.contents out.new) (refused_text number)) }
{
    writeln!(out, "REFUSED {number}")
}

// How a search ended, and how many of the choices given it followed. No more are left than were given (`left_most`), so nothing wraps.
pub fn ended<W: Write>(out: &mut W, word: &[u8], given: u64, left: u64) -> io::Result<()>
    ensures { left ≤ given → OnOk result (Appends (W.contents out.old) (W.contents out.new) (ended_text word.now given left)) }
{
    text(out, word)?;
    let followed = given.wrapping_sub(left);
    write!(out, " FOLLOWED {followed} LEFT {left}")
}

// The values left in each cell of a board, a line for each of so many cells.
pub fn cells<W: Write>(out: &mut W, cells: usize, room: [u32; BOARD_CELLS]) -> io::Result<()>
    ensures { OnOk result (Appends (W.contents out.old) (W.contents out.new) (cells_text cells room board_cells)) }
{
    for cell in 0..BOARD_CELLS {
        cell_line(out, cells, cell, room[cell])?;
    }
    Ok(())
}

fn cell_line<W: Write>(out: &mut W, cells: usize, cell: usize, domain: u32) -> io::Result<()>
    ensures { OnOk result (Appends (W.contents out.old) (W.contents out.new) (cond (ltb cell cells) (cell_text cell domain) [])) }
{
    if cells <= cell {
        return Ok(());
    }
    write!(out, "CELL {cell} VALUES")?;
    values(out, domain)?;
    writeln!(out)
}

// The values that a domain lists.
pub fn values<W: Write>(out: &mut W, domain: u32) -> io::Result<()>
    ensures { OnOk result (Appends (W.contents out.old) (W.contents out.new) (values_text domain)) }
{
    if domain == 0 {
        write!(out, " NONE")?;
    }
    for value in 0..VALUES {
        if_listed(out, domain, value)?;
    }
    Ok(())
}

fn if_listed<W: Write>(out: &mut W, domain: u32, value: usize) -> io::Result<()>
    ensures { value < values → OnOk result (Appends (W.contents out.old) (W.contents out.new) (value_text domain value)) }
{
    if VALUES <= value {
        return Ok(());
    }
    if (domain >> value) % 2 == 1 {
        write!(out, " {value}")?;
    }
    Ok(())
}
