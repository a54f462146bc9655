// Settles small boards and one of the largest, and prints the passes, the values struck and the domains left, as hexadecimal numbers.
#![tactic(auto)]

mod boards;

use board::Board;
use board::inner::board_refuses;
use settle::Tally;
use settle::inner::settle;
use std::io;
use std::io::Write;

fn main(rt: HostRuntime) -> io::Result<()> {
    let mut out = io::writer(&rt);
    show_all(&mut out)
}

fn show_all<W: Write>(out: &mut W) -> io::Result<()> {
    show(out, "the report's board", boards::report())?;
    show(out, "the last row strikes, then the first", boards::back())?;
    show(out, "many passes", boards::many())?;
    show(out, "dead", boards::dead())?;
    show(out, "loose cells", boards::loose())?;
    show(out, "64 cells, 32 full rows", boards::large())
}

fn show<W: Write>(out: &mut W, name: &str, board: Board) -> io::Result<()> {
    let Ok(()) = board_refuses(board) else {
        return writeln!(out, "{name}: refused");
    };
    let mut room = board.domains;
    let Tally { passes, struck } = settle(board, &mut room);
    write!(out, "{name}: passes {passes}, struck {struck}, left")?;
    for domain in room.iter().take(board.cells) {
        write!(out, " {domain:08x}")?;
    }
    writeln!(out)
}
