// Runs the row calls on the Figure row, at the ends of every size, and past them, and prints what they answer and leave.
#![tactic(auto)]

mod ask;
mod print;

use ask::{Row, strike};
use print::entry;
use sizes::{HIGHEST, ROW_CELLS, SUMS, TABLE, VALUES};
use std::io;
use std::io::Write;

const FULL: u32 = u32::MAX;

fn main(rt: HostRuntime) -> io::Result<()> {
    let mut out = io::writer(&rt);
    ask_all(&mut out)
}

fn ask_all<W: Write>(out: &mut W) -> io::Result<()> {
    figure(out)?;
    lengths(out)?;
    different_lengths(out)?;
    limits(out)?;
    last_sums(out)?;
    short_tables(out)?;
    long_tables(out)?;
    places(out)?;
    largest(out)?;
    largest_refused(out)
}

// The Figure row: its total, its vertices, its counts, and what striking leaves of it within three pairs of limits.
fn figure<W: Write>(out: &mut W) -> io::Result<()> {
    let weights = [3, 1, 2, 1];
    let mut room = [7, 11, 7, 6];
    Row::new(&weights, &room, 5, 8).figure(out)?;
    strike(out, "struck, 5 to 8", &weights, &mut room, 5, 8)?;
    strike(out, "struck, 12 to 13", &weights, &mut room, 12, 13)?;
    strike(out, "struck, 100 to 511", &weights, &mut room, 100, HIGHEST)
}

// Row lengths 0, 1, 10 and 11.
fn lengths<W: Write>(out: &mut W) -> io::Result<()> {
    let weights = [0; 11];
    let domains = [FULL; 11];
    Row::new(&weights[..0], &domains[..0], 0, 0).total(out, "no cells")?;
    Row::new(&weights[..1], &domains[..1], 0, 0).total(out, "one cell of 32 values, weight 0")?;
    Row::new(&weights[..10], &domains[..10], 0, 0).total(out, "ten cells of 32 values, weight 0")?;
    Row::new(&weights, &domains, 0, 0).total(out, "eleven cells")
}

// Lists of different length.
fn different_lengths<W: Write>(out: &mut W) -> io::Result<()> {
    let weights = [0; ROW_CELLS];
    let domains = [FULL; ROW_CELLS];
    Row::new(&weights, &domains[..9], 0, 0).total(out, "ten weights, nine domains")?;
    Row::new(&weights[..9], &domains, 0, 0).total(out, "nine weights, ten domains")
}

// High 511 and 512, and low above high.
fn limits<W: Write>(out: &mut W) -> io::Result<()> {
    let row = Row::new(&[255], &[12], 510, HIGHEST);
    row.total(out, "{2,3}, weight 255, 510 to 511")?;
    Row { high: SUMS, ..row }.total(out, "{2,3}, weight 255, 510 to 512")?;
    Row { high: 510, ..row }.total(out, "{2,3}, weight 255, 510 to 510")?;
    Row::new(&[255], &[12], HIGHEST, 510).total(out, "{2,3}, weight 255, 511 to 510")
}

// The last sum, 511, and partial sums past it.
fn last_sums<W: Write>(out: &mut W) -> io::Result<()> {
    let row = Row::new(&[255, 1], &[FULL; 2], HIGHEST, HIGHEST);
    row.total(out, "32 values twice, weights 255 and 1, 511 to 511")?;
    row.count(out, "its place 0, value 2", 0, 2)?;
    row.count(out, "its place 1, value 1", 1, 1)?;
    Row { low: 0, ..row }.count(out, "its place 0, value 3", 0, 3)
}

// A table of 5,631 entries, the first or the second: refused, and both hold what they held.
fn short_tables<W: Write>(out: &mut W) -> io::Result<()> {
    let row = Row::whole(&[1], &[3]);
    let mut short = [7; TABLE - 1];
    let mut enough = [7; TABLE];
    row.total_in(out, "forward table of 5,631", &mut short, &mut enough)?;
    row.total_in(out, "backward table of 5,631", &mut enough, &mut short)?;
    entry(out, "left in the short table at", 0, &short)?;
    entry(out, "left in the other at", 0, &enough)
}

// Tables of 5,632 entries and more: entries past the row's layers are unchanged.
fn long_tables<W: Write>(out: &mut W) -> io::Result<()> {
    let ten = Row::whole(&[1; ROW_CELLS], &[3; ROW_CELLS]);
    let one = Row::whole(&[1], &[3]);
    let mut forward = [7; TABLE];
    let mut backward = [7; 6000];
    let words = "tables of 5,632 and 6,000, ten cells of {0,1}";
    ten.total_in(out, words, &mut forward, &mut backward)?;
    print::ends(out, &forward, &backward)?;
    one.total_in(
        out,
        "and then one cell of {0,1}",
        &mut forward,
        &mut backward,
    )?;
    print::ends(out, &forward, &backward)
}

// Place and value at and past their ends.
fn places<W: Write>(out: &mut W) -> io::Result<()> {
    let row = Row::new(&[1; 3], &[FULL, FULL, 3], 31, 31);
    row.count(out, "place 2 of 3, value 1", 2, 1)?;
    row.count(out, "place 2 of 3, value 2, not listed", 2, 2)?;
    row.count(out, "place 1 of 3, value 31", 1, 31)?;
    row.count(out, "place 1 of 3, value 32", 1, VALUES)?;
    row.count(out, "place 3 of 3, value 31", 3, 31)?;
    Row { low: 32, ..row }.count(out, "place 3 of 3, low above high", 3, 31)
}

// Every number at its largest that is a row.
fn largest<W: Write>(out: &mut W) -> io::Result<()> {
    let weights = [u8::MAX; ROW_CELLS];
    let mut room = [FULL; ROW_CELLS];
    let row = Row::whole(&weights, &room);
    Row {
        low: HIGHEST,
        ..row
    }
    .total(out, "ten cells of 32 values, weight 255, 511 to 511")?;
    row.total(out, "ten cells of 32 values, weight 255, 0 to 511")?;
    row.count(out, "its last place, value 2", 9, 2)?;
    row.count(out, "its last place, value 31", 9, 31)?;
    strike(out, "struck", &weights, &mut room, 0, HIGHEST)
}

// And past that: a refusal leaves the domains as they were.
fn largest_refused<W: Write>(out: &mut W) -> io::Result<()> {
    let top = usize::MAX;
    let weights = [u8::MAX; ROW_CELLS];
    let mut room = [FULL; ROW_CELLS];
    strike(out, "high the largest", &weights, &mut room, 0, top)?;
    strike(out, "low the largest", &weights, &mut room, top, HIGHEST)?;
    let row = Row::whole(&weights, &room);
    row.count(out, "place the largest", top, 0)?;
    row.count(out, "value the largest", 0, top)
}
