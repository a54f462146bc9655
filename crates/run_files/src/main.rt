// Reads each board file that its arguments name and writes it again, then writes records that no file holds, and prints what came of each.
#![tactic(auto)]

use board::inner::zero_board;
use board::{Board, Row};
use inputs::{arg, arg_count, open_read, read_full};
use reader::{Counts, Reading};
use sizes::{BOARD_CELLS, BOARD_ROWS, FILE, HIGHEST, ROW_CELLS};
use std::io;
use std::io::Write;
use std::rt::{Env, Files};
use told::Refusal;

// More than the longest file, so that what is too long shows.
const MOST: usize = 4096;

// Room for an argument; a longer one is taken for none.
const PATH: usize = 4096;

// What a room holds before it is written into.
const FRESH: u8 = 85;

fn main(rt: HostRuntime) -> io::Result<()> {
    let mut out = io::writer(&rt);
    for i in 1..arg_count(&rt) {
        try_name(&rt, &mut out, i)?;
    }
    try_records(&mut out)
}

// Tries the file that argument i names.
fn try_name<R: Env + Files + Eprint, W: Write>(rt: &R, out: &mut W, i: usize) -> io::Result<()> {
    let mut path = [0; PATH];
    let length = arg(rt, i, &mut path);
    let Some(mut file) = open_read(rt, &path[..length])? else {
        return Ok(());
    };
    let mut buffer = [0; MOST];
    let size = read_full(&mut file, &mut buffer)?;
    out.write_all(&path[..length])?;
    try_file(out, &buffer[..size])?;
    writeln!(out)
}

fn try_file<W: Write>(out: &mut W, file: &[u8]) -> io::Result<()> {
    let Reading { outcome, board } = reader::read(file);
    say_counts(out, file)?;
    let Ok(()) = outcome else {
        return say_if(out, board != zero_board(), " KEPT");
    };
    write_long(out, file, board)?;
    write_short(out, file.len(), board)
}

// How many cells and rows the file has.
fn say_counts<W: Write>(out: &mut W, file: &[u8]) -> io::Result<()> {
    match reader::board_counts(file) {
        Ok(Counts { cells, rows }) => write!(out, " CELLS {cells} LINES {rows}"),
        Err(refusal) => write!(out, " REFUSED {refusal}"),
    }
}

fn say_if<W: Write>(out: &mut W, holds: bool, words: &str) -> io::Result<()> {
    if holds {
        return write!(out, "{words}");
    }
    Ok(())
}

// Writes a board that was read, with room to spare.
fn write_long<W: Write>(out: &mut W, file: &[u8], board: Board) -> io::Result<()> {
    let mut room = [FRESH; MOST];
    say_written(out, writer::write(board, &mut room))?;
    say_if(out, is_kept(file, &room), " SAME")
}

// Whether the room begins with the file and is fresh after it.
fn is_kept(file: &[u8], room: &[u8]) -> bool {
    match room.strip_prefix(file) {
        Some(rest) => [FRESH; MOST].ends_with(rest),
        None => false,
    }
}

// Writes it with one byte less than its file has.
fn write_short<W: Write>(out: &mut W, size: usize, board: Board) -> io::Result<()> {
    let mut room = [FRESH; MOST];
    write!(out, ", ONE BYTE SHORT")?;
    write_in(out, &mut room, size.saturating_sub(1), board)?;
    say_if(out, !is_kept(&[], &room), " CHANGED")
}

// Writes into the first size bytes of the room.
fn write_in<W: Write>(out: &mut W, room: &mut [u8], size: usize, board: Board) -> io::Result<()> {
    match room.get_mut(..size) {
        Some(part) => say_written(out, writer::write(board, part)),
        None => Ok(()),
    }
}

// What the writer answered.
fn say_written<W: Write>(out: &mut W, written: Result<usize, Refusal>) -> io::Result<()> {
    match written {
        Ok(size) => write!(out, " WRITTEN {size}"),
        Err(refusal) => write!(out, " REFUSED {refusal}"),
    }
}

// A row with the largest numbers in every place but those given, and a board with such a row in every place.
fn full_row(len: usize, limit: usize, names: [usize; ROW_CELLS]) -> Row {
    Row {
        len,
        low: limit,
        high: limit,
        names,
        weights: [u8::MAX; ROW_CELLS],
    }
}

fn full(cells: usize, rows: usize, row: Row) -> Board {
    Board {
        cells,
        domains: [u32::MAX; BOARD_CELLS],
        rows,
        lines: [row; BOARD_ROWS],
    }
}

// Writes a record into room of so many bytes.
fn try_record<W: Write>(out: &mut W, name: &str, board: Board, size: usize) -> io::Result<()> {
    let mut room = [FRESH; FILE];
    write!(out, "RECORD {name}")?;
    write_in(out, &mut room, size, board)?;
    writeln!(out)
}

// Records with the largest numbers in every place but those made sound so far.
fn try_records<W: Write>(out: &mut W) -> io::Result<()> {
    let top = usize::MAX;
    let tops = [top; ROW_CELLS];
    let last = [54, 55, 56, 57, 58, 59, 60, 61, 62, 63];
    let none_sound = full_row(top, top, tops);
    try_record(out, "cells", full(top, top, none_sound), 0)?;
    try_record(out, "rows", full(BOARD_CELLS, top, none_sound), 0)?;
    try_record(out, "length", full(BOARD_CELLS, BOARD_ROWS, none_sound), 0)?;
    let length_sound = full_row(ROW_CELLS, top, tops);
    try_record(
        out,
        "limits",
        full(BOARD_CELLS, BOARD_ROWS, length_sound),
        0,
    )?;
    let limits_sound = full_row(ROW_CELLS, HIGHEST, tops);
    try_record(out, "names", full(BOARD_CELLS, BOARD_ROWS, limits_sound), 0)?;
    let named_twice = full_row(ROW_CELLS, HIGHEST, [63; ROW_CELLS]);
    try_record(out, "twice", full(BOARD_CELLS, BOARD_ROWS, named_twice), 0)?;
    let sound = full(BOARD_CELLS, BOARD_ROWS, full_row(ROW_CELLS, HIGHEST, last));
    try_record(out, "room", sound, FILE - 1)?;
    try_record(out, "largest", sound, FILE)
}
