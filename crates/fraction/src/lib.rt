// Fractions of a count and a total: which of two is larger, exactly, and one as a double for display.
#![tactic(auto)]

pub mod inner;

ghost use Rattle.std.specs.Prelude.{◌≡◌};
ghost use Rattle.told.specs.Told.{refusal_in};
ghost use Rattle.fraction.specs.Rank.{told, rank_refuses, rank_says};

use inner::ordered;
use std::cmp::Ordering;
use told::Refusal;

// Ranks c1 / t1 against c2 / t2 as exact fractions. Refuses a total of 0. The four numbers stand apart, as in the C call of this name.
pub fn rank(c1: u64, t1: u64, c2: u64, t2: u64) -> Result<Ordering, Refusal>
    ensures { told result ≡ rank_says c1 t1 c2 t2 }
{
    rank_refuses(t1, t2)?;
    Ok(ordered(c1, t1, c2, t2))
}

// Whether a total is 0.
fn rank_refuses(t1: u64, t2: u64) -> Result<(), Refusal>
    ensures { refusal_in result ≡ rank_refuses t1 t2 }
{
    if t1 == 0 || t2 == 0 {
        return Err(Refusal::Fraction);
    }
    Ok(())
}
