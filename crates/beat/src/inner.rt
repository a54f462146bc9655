// Calls for the floors above, whose candidates have totals above 0.
ghost use Rattle.std.specs.Prelude.{◌≡◌, true, [], ◌<◌};
ghost use Rattle.sizes.specs.Sizes.{values};
ghost use Rattle.listing.specs.Listing.{keep};
ghost use Rattle.fraction.specs.Rank.{word};
ghost use Rattle.counting.specs.Counting.{lists};
ghost use Rattle.choosing.specs.Choosing.{by_value, beats};
ghost use Rattle.choosing.specs.Going.{through};
ghost use Rattle.beat.specs.Beat.{ties_of, candidate_of, leader_of, HasTotal};

use crate::{Candidate, Ties};
use fraction::inner::ordered;
use std::cmp::Ordering;

// The best so far, with a candidate whose value is listed by the domain; one that is not listed is none.
#[tactic(auto, using(crate::specs::BeatLaws::unlisted, crate::specs::BeatLaws::standing))]
pub fn with_listed(
    ties: Ties,
    best: Option<Candidate>,
    x: Candidate,
    domain: u32,
) -> Option<Candidate>
    requires { (x.value < values) × (lists domain x.value ≡ true → 0 < x.total) × HasTotal best }
    ensures result_value { leader_of result ≡ through (ties_of ties) (leader_of best) (keep (lists domain x.value) (candidate_of x) []) }
    ensures has_total { HasTotal result }
{
    if (domain >> x.value) % 2 != 1 {
        return best;
    }
    match best {
        Some(y) if !beats(ties, x, y) => best,
        _ => Some(x),
    }
}

// Whether x beats y: by their densities, as exact fractions, and where these are equal by the lowest cell, then by the
// value that goes first, then by the lowest row.
#[tactic(auto, using(crate::specs::BeatLaws::comparing))]
fn beats(ties: Ties, x: Candidate, y: Candidate) -> bool
    requires { (0 < x.total) × (0 < y.total) }
    ensures { result ≡ beats (ties_of ties) (candidate_of x) (candidate_of y) }
{
    ordered(x.count, x.total, y.count, y.total)
        .then(y.cell.cmp(&x.cell))
        .then(by_value(ties, x, y))
        .then(y.row.cmp(&x.row))
        .is_gt()
}

// How x stands to y by their values alone.
fn by_value(ties: Ties, x: Candidate, y: Candidate) -> Ordering
    ensures { word result ≡ by_value (ties_of ties) (candidate_of x) (candidate_of y) }
{
    let lowest = y.value.cmp(&x.value);
    match ties {
        Ties::Lowest => lowest,
        Ties::Highest => lowest.reverse(),
    }
}
