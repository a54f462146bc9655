// Calls for the floors above, which have made sure of what each requires.
ghost use Rattle.std.specs.Prelude.{◌≡◌};
ghost use Prim.Native.Nat.{◌<◌, ◌≤◌, ◌^◌, compare};
ghost use Rattle.fraction.specs.Rank.{word, order};
ghost use Rattle.fraction.specs.Share.{share_of};

use std::cmp::Ordering;

// Ranks c1 / t1 against c2 / t2. Where the whole parts are equal, r1 / t1 stands to r2 / t2 as t2 / r2
// stands to t1 / r1: the same question over smaller denominators.
#[tactic(auto, using(crate::specs::RankLaws::by_whole, crate::specs::RankLaws::by_zero, crate::specs::RankLaws::swapped))]
pub fn ordered(c1: u64, t1: u64, c2: u64, t2: u64) -> Ordering
    requires { (0 < t1) × (0 < t2) }
    ensures { word result ≡ order c1 t1 c2 t2 }
{
    let q1 = c1 / t1;
    let q2 = c2 / t2;
    if q1 != q2 {
        return compared(q1, q2);
    }
    let r1 = c1 % t1;
    let r2 = c2 % t2;
    if r1 == 0 || r2 == 0 {
        return compared(r1, r2);
    }
    ordered(t2, r2, t1, r1)
}

// The one comparison that every ranking comes down to.
fn compared(a: u64, b: u64) -> Ordering
    ensures { word result ≡ compare a b }
{
    a.cmp(&b)
}

// The share of a count in its total as a double, for display: it decides nothing.
pub fn share(count: u64, total: u64) -> f64
    requires { (count ≤ 2 ^ 50) × (0 < total) × (total ≤ 2 ^ 50) }
    ensures { result ≡ share_of count total }
{
    count as f64 / total as f64
}
