// Strikes random rows by counting and by reachable sums, and prints in how many both agree in every domain and in the number struck.
// Arguments: ROWS SEED. With fewer, 10,000 rows and the seed 1.
#![tactic(auto)]

ghost use Rattle.std.specs.Prelude.{◌≡◌, ◌<◌, ◌≤◌, length};
ghost use Rattle.sizes.specs.Sizes.{row_cells, highest};
ghost use Rattle.sizes.specs.Sound.{SoundRow};

use digits::number_of;
use inputs::{arg, arg_count};
use sizes::{HIGHEST, ROW_CELLS, SUMS, TABLE};
use std::io;
use std::io::Write;

// Kinds of row: all values, holes, weight 0, one sum, every sum, empty domains.
#[derive(Clone, Copy)]
enum Kind {
    Full,
    Holes,
    Zero,
    Tight,
    Wide,
    Empty,
}

const KINDS: u64 = 6;

// From one row's seed to the next: 2 to the 64th by the golden ratio.
const STRIDE: u64 = 11400714819323198485;

#[derive(Clone, Copy)]
struct Limits {
    low: usize,
    high: usize,
}

// Rows in which both agree, and the values that both strike there.
#[derive(Clone, Copy)]
struct Tally {
    agreed: u64,
    struck: u64,
}

fn main(rt: HostRuntime) -> io::Result<()> {
    let mut out = io::writer(&rt);
    if arg_count(&rt) < 3 {
        return report(&mut out, 10000, 1);
    }
    let mut word = [0; 20];
    let n = arg(&rt, 1, &mut word);
    let rows = number_of(&word[..n]);
    let n = arg(&rt, 2, &mut word);
    report(&mut out, rows, number_of(&word[..n]))
}

fn report<W: Write>(out: &mut W, rows: u64, seed: u64) -> io::Result<()> {
    let Tally { agreed, struck } = over_rows(rows, seed);
    writeln!(
        out,
        "ROWS {rows} SEED {seed} AGREED {agreed} STRUCK {struck}"
    )
}

fn over_rows(rows: u64, seed: u64) -> Tally {
    let mut forward = [0; TABLE];
    let mut backward = [0; TABLE];
    let mut agreed: u64 = 0;
    let mut struck: u64 = 0;
    let mut x = seed;
    for _ in 0..rows {
        x = x.wrapping_add(STRIDE);
        if let Some(gone) = one_row(x, &mut forward, &mut backward) {
            agreed = agreed.wrapping_add(1);
            struck = struck.wrapping_add(gone);
        }
    }
    Tally { agreed, struck }
}

// One row, made from a number: how many values both strike, where they agree.
fn one_row(x: u64, forward: &mut [u64], backward: &mut [u64]) -> Option<u64> {
    let a = stirred(x);
    let kind = Kind::from(a);
    let n = cells_of(a / KINDS);
    let mut weights = [0; ROW_CELLS];
    let mut domains = [0; ROW_CELLS];
    make(&mut weights, &mut domains, kind, a);
    let mut again = domains;
    let limits = limits_of(kind, stirred(a));
    struck_alike(
        &weights[..n],
        &mut domains[..n],
        &mut again[..n],
        limits,
        forward,
        backward,
    )
}

// Another number, as random as the one given: each bit of it goes into many.
fn stirred(x: u64) -> u64 {
    let a = x ^ (x << 13);
    let b = a ^ (a >> 7);
    b ^ (b << 17)
}

impl From<u64> for Kind {
    fn from(x: u64) -> Kind {
        match x % KINDS {
            0 => Kind::Full,
            1 => Kind::Holes,
            2 => Kind::Zero,
            3 => Kind::Tight,
            4 => Kind::Wide,
            _ => Kind::Empty,
        }
    }
}

fn cells_of(x: u64) -> usize
    ensures { (0 < result) × (result ≤ row_cells) }
{
    (x % ROW_CELLS as u64) as usize + 1
}

fn limits_of(kind: Kind, x: u64) -> Limits
    ensures { (result.low ≤ result.high) × (result.high ≤ highest) }
{
    let a = (x % SUMS as u64) as usize;
    let b = (x / SUMS as u64 % SUMS as u64) as usize;
    match kind {
        Kind::Wide => Limits {
            low: 0,
            high: HIGHEST,
        },
        Kind::Tight => Limits { low: a, high: a },
        _ => Limits {
            low: a.min(b),
            high: a.max(b),
        },
    }
}

// Weights and domains of every cell.
fn make(weights: &mut [u8], domains: &mut [u32], kind: Kind, x: u64) {
    let mut y = x;
    for (w, d) in weights.iter_mut().zip(domains.iter_mut()) {
        y = stirred(y);
        *w = weight(kind, y);
        *d = domain(kind, y / 1024);
    }
}

// Half of the weights are small, so that many sums matter.
fn weight(kind: Kind, x: u64) -> u8 {
    match kind {
        Kind::Zero => 0,
        _ if x % 2 == 0 => (x / 2 % 8) as u8,
        _ => (x / 2 % 256) as u8,
    }
}

fn domain(kind: Kind, x: u64) -> u32 {
    match kind {
        Kind::Full => u32::MAX,
        Kind::Empty if x % 4 == 0 => 0,
        _ => (x / 4 % 4294967296) as u32,
    }
}

// Strikes the same row in both ways, and answers how many values each strikes, where they agree. A refused row agrees with none.
fn struck_alike(
    weights: &[u8],
    domains: &mut [u32],
    again: &mut [u32],
    limits: Limits,
    forward: &mut [u64],
    backward: &mut [u64],
) -> Option<u64>
    requires { SoundRow weights.now again.old limits.low limits.high }
{
    let Limits { low, high } = limits;
    let counted = row::strike(weights, domains, low, high, forward, backward);
    let reached = reach::inner::strike(weights, again, low, high) as u64;
    if counted == Ok(reached) && *domains == *again {
        return Some(reached);
    }
    None
}
