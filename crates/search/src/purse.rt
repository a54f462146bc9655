// The purse of choices, and the choosing step that it is lent to.
ghost use Rattle.std.specs.Prelude.{◌≡◌, ◌+◌, ◌^◌, ◌<◌};
ghost use Rattle.search.specs.Purse.{taken, one_left};

// The choices left, and those followed.
#[derive(Clone, Copy)]
pub struct Purse {
    pub left: u64,
    pub followed: u64,
}

impl Purse {
    // The choosing step: takes one choice, if one is left, and says whether there was one.
    pub fn take_choice(&mut self) -> bool
        requires { self.old.left + self.old.followed < 2 ^ 64 }
        ensures { (self.new ≡ taken self.old) × (result ≡ one_left self.old) }
    {
        if self.left == 0 {
            return false;
        }
        self.left -= 1;
        self.followed += 1;
        true
    }
}
