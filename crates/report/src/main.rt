// Reports on the board file on standard input, in the lines of the scope document.
#![tactic(auto)]

ghost use Rattle.std.specs.Prelude.{◌≡◌, [], OnOk, cond, ltb};
ghost use Rattle.std.specs.Io.KnownBytes.{Appends};
ghost use Rattle.sizes.specs.Sizes.{board_rows};
ghost use Rattle.choose.specs.Advice.{told};
ghost use Rattle.report.specs.Reporting.{tally_text, total_of_text, domain_named, domains_named, line_text, lines_text, choice_text, report_text};

use advice::{Advised, advise};
use board::{Board, Row};
use choose::Advice;
use inputs::read_full;
use lines::{cells, refused};
use reader::read;
use settle::Tally;
use sizes::{BOARD_CELLS, BOARD_ROWS, FILE, ROW_CELLS, TABLE};
use std::io;
use std::io::Write;

// A byte more than the longest file: an input that fills it is too long, and refused as such.
const INPUT: usize = FILE + 1;

fn main(rt: HostRuntime) -> io::Result<()> {
    let mut input = [0; INPUT];
    let n = read_full(&mut rt.reader(), &mut input)?;
    let mut out = io::writer(&rt);
    report(&mut out, &input[..n])
}

fn report<W: Write>(out: &mut W, file: &[u8]) -> io::Result<()>
    ensures { OnOk result (Appends (W.contents out.old) (W.contents out.new) (report_text file.now)) }
{
    let mut room = [0; BOARD_CELLS];
    let mut forward = [0; TABLE];
    let mut backward = [0; TABLE];
    match advise(file, &mut room, &mut forward, &mut backward) {
        Err(refusal) => refused(out, refusal.number()),
        Ok(Advised { tally, advice }) => {
            let board = read(file).board;
            sizes_and_tally(out, board.cells, board.rows, tally)?;
            cells(out, board.cells, room)?;
            totals(out, board, room)?;
            last_line(out, advice)
        }
    }
}

fn sizes_and_tally<W: Write>(out: &mut W, cells: usize, rows: usize, tally: Tally) -> io::Result<()>
    ensures { OnOk result (Appends (W.contents out.old) (W.contents out.new) (tally_text cells rows tally.passes tally.struck)) }
{
    let Tally { passes, struck } = tally;
    writeln!(
        out,
        "CELLS {cells} LINES {rows}\nPASSES {passes} STRUCK {struck}"
    )
}

// Each row's total over the settled domains.
fn totals<W: Write>(out: &mut W, board: Board, room: [u32; BOARD_CELLS]) -> io::Result<()>
    ensures { OnOk result (Appends (W.contents out.old) (W.contents out.new) (lines_text board room board_rows)) }
{
    for line in 0..BOARD_ROWS {
        line_total(out, board.rows, line, board.lines[line], room)?;
    }
    Ok(())
}

fn line_total<W: Write>(
    out: &mut W,
    rows: usize,
    line: usize,
    row: Row,
    room: [u32; BOARD_CELLS],
) -> io::Result<()>
    ensures { OnOk result (Appends (W.contents out.old) (W.contents out.new) (cond (ltb line rows) (line_text line row room) [])) }
{
    if rows <= line {
        return Ok(());
    }
    write!(out, "LINE {line}")?;
    let domains = domains_of(row.names, room);
    total_of(out, &row.weights, &domains, row.len, row.low, row.high)?;
    writeln!(out)
}

// The domains of the named cells, and none for a cell that no board has.
fn domains_of(names: [usize; ROW_CELLS], room: [u32; BOARD_CELLS]) -> [u32; ROW_CELLS]
    ensures { result ≡ domains_named names room }
{
    let mut domains = [0; ROW_CELLS];
    for k in 0..ROW_CELLS {
        domains[k] = domain_of(names[k], room);
    }
    domains
}

fn domain_of(cell: usize, room: [u32; BOARD_CELLS]) -> u32
    ensures { result ≡ domain_named room cell }
{
    room.get(cell).copied().unwrap_or(0)
}

// The total of the row of the first len cells, where there are so many; the parameters are the row's, as `row::total` has them.
#[tactic(auto, unfolding(crate::specs::Reporting::total_of_text))]
fn total_of<W: Write>(
    out: &mut W,
    weights: &[u8],
    domains: &[u32],
    len: usize,
    low: usize,
    high: usize,
) -> io::Result<()>
    ensures { OnOk result (Appends (W.contents out.old) (W.contents out.new) (total_of_text weights.now domains.now len low high)) }
{
    if weights.len() < len || domains.len() < len {
        return Ok(());
    }
    let mut forward = [0; TABLE];
    let mut backward = [0; TABLE];
    match row::total(
        &weights[..len],
        &domains[..len],
        low,
        high,
        &mut forward,
        &mut backward,
    ) {
        Ok(total) => write!(out, " TOTAL {total}"),
        Err(refusal) => write!(out, " REFUSED {refusal}"),
    }
}

fn last_line<W: Write>(out: &mut W, advice: Advice) -> io::Result<()>
    ensures { OnOk result (Appends (W.contents out.old) (W.contents out.new) (choice_text (told advice))) }
{
    match advice {
        Advice::Dead => writeln!(out, "DEAD"),
        Advice::Settled => writeln!(out, "SETTLED"),
        Advice::Advise {
            cell,
            value,
            row,
            count,
            total,
            share: _,
        } => writeln!(
            out,
            "ADVICE CELL {cell} VALUE {value} LINE {row} COUNT {count} TOTAL {total}"
        ),
    }
}
