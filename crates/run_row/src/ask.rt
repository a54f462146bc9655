// The row calls, each with tables of its own, and a line for what it answers.
use crate::print;
use sizes::{HIGHEST, TABLE};
use std::io;
use std::io::Write;
use told::Refusal;

// A row to ask about.
#[derive(Clone, Copy)]
pub struct Row<'a> {
    pub weights: &'a [u8],
    pub domains: &'a [u32],
    pub low: usize,
    pub high: usize,
}

impl<'a> Row<'a> {
    pub fn new(weights: &'a [u8], domains: &'a [u32], low: usize, high: usize) -> Row<'a> {
        Row {
            weights,
            domains,
            low,
            high,
        }
    }

    // One of sums from 0 to 511.
    pub fn whole(weights: &'a [u8], domains: &'a [u32]) -> Row<'a> {
        Row::new(weights, domains, 0, HIGHEST)
    }

    pub fn total<W: Write>(self, out: &mut W, words: &str) -> io::Result<()> {
        self.total_in(out, words, &mut [7; TABLE], &mut [7; TABLE])
    }

    // The total, by these tables.
    pub fn total_in<W: Write>(
        self,
        out: &mut W,
        words: &str,
        forward: &mut [u64],
        backward: &mut [u64],
    ) -> io::Result<()> {
        let answer = row::total(
            self.weights,
            self.domains,
            self.low,
            self.high,
            forward,
            backward,
        );
        print::answer(out, words, answer)
    }

    pub fn count<W: Write>(
        self,
        out: &mut W,
        words: &str,
        place: usize,
        value: usize,
    ) -> io::Result<()> {
        print::answer(out, words, self.counted(place, value))
    }

    fn counted(self, place: usize, value: usize) -> Result<u64, Refusal> {
        row::count(
            self.weights,
            self.domains,
            self.low,
            self.high,
            place,
            value,
            &mut [7; TABLE],
            &mut [7; TABLE],
        )
    }

    // Its total and its vertices, and its counts of the values 0 to 3, place by place.
    pub fn figure<W: Write>(self, out: &mut W) -> io::Result<()> {
        let mut forward = [0; TABLE];
        let mut backward = [0; TABLE];
        self.total_in(out, "figure total", &mut forward, &mut backward)?;
        print::vertices(out, &forward, &backward)?;
        for place in 0..self.domains.len() {
            for value in 0..4 {
                write!(out, "figure count {place} {value}")?;
                self.count(out, "", place, value)?;
            }
        }
        Ok(())
    }
}

// Strikes a row, and prints a line of the domains that are left. The parameters stand one by one: `Row` only borrows its domains.
pub fn strike<W: Write>(
    out: &mut W,
    words: &str,
    weights: &[u8],
    domains: &mut [u32],
    low: usize,
    high: usize,
) -> io::Result<()> {
    let answer = row::strike(
        weights,
        domains,
        low,
        high,
        &mut [7; TABLE],
        &mut [7; TABLE],
    );
    print::answer(out, words, answer)?;
    print::domains(out, domains)
}
