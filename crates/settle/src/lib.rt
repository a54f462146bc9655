// Settling a board: passes over its rows, each row visited by striking, until a pass strikes nothing.
#![tactic(auto)]

pub mod inner;

ghost use Rattle.std.specs.Prelude.{◌≡◌, ◌+◌, ◌≤◌};
ghost use Rattle.settle.specs.Settle.{board_values};

// The passes made and the values struck so far.
#[derive(Clone, Copy)]
pub struct Tally {
    pub passes: usize,
    pub struck: usize,
}

impl Tally {
    // After a visit that struck n values.
    fn after_row(mut self, n: usize) -> Self
        requires { self.struck + n ≤ board_values }
        ensures { (result.passes ≡ self.passes) × (result.struck ≡ self.struck + n) }
    {
        self.struck += n;
        self
    }

    // After a pass.
    fn after_pass(mut self) -> Self
        requires { self.passes ≤ board_values }
        ensures { (result.passes ≡ self.passes + 1) × (result.struck ≡ self.struck) }
    {
        self.passes += 1;
        self
    }
}
