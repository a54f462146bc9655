// The best candidate so far: in a file of its own, since definitions name it that the contracts of its steps cite.
ghost use Rattle.std.specs.Prelude.{◌≡◌, None};
ghost use Rattle.std.proofs.Props.{props};
ghost use Rattle.beat.specs.Beat.{HasTotal};

use beat::{Candidate, Ties};

// The best candidate so far, if there were any, and which value goes first where densities and cells are equal.
#[derive(Clone, Copy)]
pub struct Best {
    pub ties: Ties,
    pub leader: Option<Candidate>,
    ghost has_total: { HasTotal leader } by { Prim.hlevel props },
}

impl Best {
    // Before any candidate.
    pub fn new(ties: Ties) -> Best
        ensures same_ties { result.ties ≡ ties }
        ensures leader { result.leader ≡ None }
    {
        Best { ties, leader: None }
    }
}
