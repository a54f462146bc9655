// Numbers as words of decimal digits, for programs that take them as arguments.
#![tactic(auto)]

ghost use Rattle.std.specs.Prelude.{◌≡◌};
ghost use Rattle.digits.specs.Digits.{with_digit, spelled};

// The number that a word spells, or the largest of 64 bits where it spells a larger one.
pub fn number_of(word: &[u8]) -> u64
    ensures { result ≡ spelled word.now }
{
    let mut n = 0;
    for digit in word {
        n = with_digit(n, *digit);
    }
    n
}

// A number with one digit more, at most the largest of 64 bits.
fn with_digit(n: u64, digit: u8) -> u64
    ensures { result ≡ with_digit n digit }
{
    n.saturating_mul(10).saturating_add(u64::from(digit % 16))
}
