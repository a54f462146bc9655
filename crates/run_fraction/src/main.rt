// Runs the scope document's examples on fractions, and the numbers at their ends.
#![tactic(auto)]

use fraction::inner::share;
use fraction::rank;
use std::cmp::Ordering;
use std::io::Write;
use std::{fmt, io};

// 2 to the 50th, the most that a total can be.
const N: u64 = 1125899906842624;

// A count in a total.
#[derive(Clone, Copy)]
struct Fraction(u64, u64);

impl fmt::Display for Fraction {
    fn fmt<W: fmt::Write>(&self, f: &mut fmt::Formatter<W>) -> fmt::Result {
        let Fraction(count, total) = *self;
        write!(f, "{count}/{total}")
    }
}

fn main(rt: HostRuntime) -> io::Result<()> {
    let mut out = io::writer(&rt);
    show_all(&mut out)
}

// One line: the first fraction, how it stands to the second, the second.
fn show<W: Write>(out: &mut W, first: Fraction, second: Fraction) -> io::Result<()> {
    write!(out, "{first} ")?;
    match rank(first.0, first.1, second.0, second.1) {
        Ok(Ordering::Less) => write!(out, "below")?,
        Ok(Ordering::Equal) => write!(out, "equal")?,
        Ok(Ordering::Greater) => write!(out, "above")?,
        Err(refusal) => write!(out, "refused {refusal}")?,
    }
    writeln!(out, " {second}")
}

fn show_all<W: Write>(out: &mut W) -> io::Result<()> {
    let top = u64::MAX;
    show(out, Fraction(10, 22), Fraction(5, 11))?;
    show(out, Fraction(N - 1, N), Fraction(N - 2, N - 1))?;
    show(out, Fraction(N - 2, N - 1), Fraction(N - 1, N))?;
    if share(N - 1, N) == share(N - 2, N - 1) {
        writeln!(out, "the same double")?;
    }
    if share(10, 22) == share(5, 11) {
        writeln!(out, "the same double")?;
    }
    if share(1, 2) == 0.5 {
        writeln!(out, "1/2 is the double 0.5")?;
    }
    show(out, Fraction(top, top), Fraction(1, 1))?;
    show(out, Fraction(top, top - 1), Fraction(top - 1, top - 2))?;
    show(out, Fraction(top, 1), Fraction(top - 1, 1))?;
    show(out, Fraction(0, top), Fraction(1, top))?;
    show(out, Fraction(0, 1), Fraction(0, top))?;
    show(out, Fraction(1, 0), Fraction(1, 2))?;
    show(out, Fraction(1, 2), Fraction(1, 0))?;
    show(out, Fraction(0, 0), Fraction(0, 0))
}
