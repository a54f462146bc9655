// What the program prints, a line at a time.
use sizes::SUMS;
use std::io;
use std::io::Write;
use told::Refusal;

// A text, and an answer.
pub fn answer<W: Write>(out: &mut W, words: &str, answer: Result<u64, Refusal>) -> io::Result<()> {
    match answer {
        Ok(number) => writeln!(out, "{words}: {number}"),
        Err(refusal) => writeln!(out, "{words}: refused {refusal}"),
    }
}

// A line of domains, each as its number.
pub fn domains<W: Write>(out: &mut W, room: &[u32]) -> io::Result<()> {
    write!(out, "  domains")?;
    for domain in room {
        write!(out, " {domain}")?;
    }
    writeln!(out)
}

// A line with one entry of a table, where it has so many.
pub fn entry<W: Write>(out: &mut W, words: &str, at: usize, table: &[u64]) -> io::Result<()> {
    match table.get(at) {
        Some(number) => writeln!(out, "  {words} {at}: {number}"),
        None => Ok(()),
    }
}

// Entries of both tables: of the first layers, of the last, and past them.
pub fn ends<W: Write>(out: &mut W, forward: &[u64], backward: &[u64]) -> io::Result<()> {
    for at in [513, 1023, 5125, 5631] {
        entry(out, "forward at", at, forward)?;
    }
    for at in [0, 5631, 5632, 5999] {
        entry(out, "backward at", at, backward)?;
    }
    Ok(())
}

// The vertices of a row's reduced graph: each (i, b) that has both numbers above 0, in tables that were 0 before.
pub fn vertices<W: Write>(out: &mut W, forward: &[u64], backward: &[u64]) -> io::Result<()> {
    for (k, (before, after)) in forward.iter().zip(backward).enumerate() {
        if *before != 0 && *after != 0 {
            let (i, b) = (k / SUMS, k % SUMS);
            writeln!(out, "  vertex {i} {b}: {before} {after}")?;
        }
    }
    Ok(())
}
