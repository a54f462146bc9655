// Runs one method over a row of one kind a number of times, and prints a checksum: bench/run measures it beside the same loops in Rust.
// Arguments: METHOD KIND TIMES. With fewer, every method over every kind, once.
#![tactic(auto)]

use digits::number_of;
use inputs::{arg, arg_count};
use sizes::{HIGHEST, ROW_CELLS, TABLE, length_refuses, limits_refuse};
use std::io::Write;
use std::{fmt, io};
use told::Refusal;

// Both tables and the total; striking by counting; striking by reachable sums.
#[derive(Clone, Copy)]
enum Method {
    Tables,
    Strike,
    Reach,
}

const METHODS: [Method; 3] = [Method::Tables, Method::Strike, Method::Reach];

// Ten cells of 32 values, and of 8; ten cells of weight 0; the Figure row.
#[derive(Clone, Copy)]
enum Kind {
    Full,
    Eight,
    Zero,
    Figure,
}

const KINDS: [Kind; 4] = [Kind::Full, Kind::Eight, Kind::Zero, Kind::Figure];

fn main(rt: HostRuntime) -> io::Result<()> {
    let mut out = io::writer(&rt);
    if arg_count(&rt) < 4 {
        return every_line(&mut out);
    }
    let mut word = [0; 16];
    let n = arg(&rt, 1, &mut word);
    let method = Method::from(&word[..n]);
    let n = arg(&rt, 2, &mut word);
    let kind = Kind::from(&word[..n]);
    let n = arg(&rt, 3, &mut word);
    print_line(&mut out, method, kind, number_of(&word[..n]))
}

fn every_line<W: Write>(out: &mut W) -> io::Result<()> {
    for method in METHODS {
        for kind in KINDS {
            print_line(out, method, kind, 1)?;
        }
    }
    Ok(())
}

fn print_line<W: Write>(out: &mut W, method: Method, kind: Kind, times: u64) -> io::Result<()> {
    // before the turns: an output that takes nothing ends the program at once
    write!(out, "{method} {kind} ")?;
    let sum = over_kind(method, kind, times);
    writeln!(out, "{sum}")
}

// By its name; any other word is taken for the last.
impl From<&[u8]> for Method {
    fn from(word: &[u8]) -> Method {
        match word {
            b"tables" => Method::Tables,
            b"strike" => Method::Strike,
            _ => Method::Reach,
        }
    }
}

impl Method {
    // One turn. The parameters stand one by one, as the row calls have them; so in `over_row` and `by_reach`.
    fn once(
        self,
        weights: &[u8],
        domains: &mut [u32],
        low: usize,
        high: usize,
        forward: &mut [u64],
        backward: &mut [u64],
    ) -> u64 {
        match self {
            Method::Tables => number(row::total(weights, domains, low, high, forward, backward)),
            Method::Strike => number(row::strike(weights, domains, low, high, forward, backward)),
            Method::Reach => by_reach(weights, domains, low, high),
        }
    }
}

impl fmt::Display for Method {
    fn fmt<W: fmt::Write>(&self, f: &mut fmt::Formatter<W>) -> fmt::Result {
        match self {
            Method::Tables => write!(f, "tables"),
            Method::Strike => write!(f, "strike"),
            Method::Reach => write!(f, "reach"),
        }
    }
}

// By its name; any other word is taken for the last.
impl From<&[u8]> for Kind {
    fn from(word: &[u8]) -> Kind {
        match word {
            b"full" => Kind::Full,
            b"eight" => Kind::Eight,
            b"zero" => Kind::Zero,
            _ => Kind::Figure,
        }
    }
}

impl fmt::Display for Kind {
    fn fmt<W: fmt::Write>(&self, f: &mut fmt::Formatter<W>) -> fmt::Result {
        match self {
            Kind::Full => write!(f, "full"),
            Kind::Eight => write!(f, "eight"),
            Kind::Zero => write!(f, "zero"),
            Kind::Figure => write!(f, "figure"),
        }
    }
}

fn over_kind(method: Method, kind: Kind, times: u64) -> u64 {
    let mut full = [u32::MAX; ROW_CELLS];
    let mut eight = [255; ROW_CELLS];
    let mut figure = [7, 11, 7, 6];
    match kind {
        Kind::Full => over_row(method, &[1; ROW_CELLS], &mut full, 0, HIGHEST, times),
        Kind::Eight => over_row(method, &[3; ROW_CELLS], &mut eight, 100, 120, times),
        Kind::Zero => over_row(method, &[0; ROW_CELLS], &mut full, 0, 0, times),
        Kind::Figure => over_row(method, &[3, 1, 2, 1], &mut figure, 5, 8, times),
    }
}

// The sum of all answers and of what the tables and the domains then hold.
fn over_row(
    method: Method,
    weights: &[u8],
    domains: &mut [u32],
    low: usize,
    high: usize,
    times: u64,
) -> u64 {
    let mut forward = [0; TABLE];
    let mut backward = [0; TABLE];
    let mut sum: u64 = 0;
    for _ in 0..times {
        let answer = method.once(weights, domains, low, high, &mut forward, &mut backward);
        sum = sum.wrapping_add(answer);
    }
    sum = sum
        .wrapping_add(added(&forward))
        .wrapping_add(added(&backward));
    domains
        .iter()
        .fold(sum, |sum, domain| sum.wrapping_add(u64::from(*domain)))
}

fn added(table: &[u64]) -> u64 {
    table
        .iter()
        .fold(0, |sum: u64, entry| sum.wrapping_add(*entry))
}

// Strikes by reachable sums, or answers 0 where it is no row.
fn by_reach(weights: &[u8], domains: &mut [u32], low: usize, high: usize) -> u64 {
    let cells = domains.len();
    if length_refuses(cells).is_err() || weights.len() != cells {
        return 0;
    }
    if limits_refuse(low, high).is_err() {
        return 0;
    }
    reach::inner::strike(weights, domains, low, high) as u64
}

fn number(answer: Result<u64, Refusal>) -> u64 {
    match answer {
        Ok(number) => number,
        Err(refusal) => u64::from(refusal.number()),
    }
}
