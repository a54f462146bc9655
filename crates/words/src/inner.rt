// Sets of sums as bits of words, for the floors above, which have made sure of what each call requires.
ghost use Rattle.std.specs.Prelude.{◌≡◌, ◌||◌, ℕ, ◌+◌, ◌*◌, ◌/◌, ◌<◌, ◌≤◌, length};
ghost use Rattle.sizes.specs.Sizes.{highest, sums};
ghost use Rattle.counting.specs.Counting.{within};
ghost use Rattle.words.specs.Words.{word_bits, set_words, bit, has, any, both, Put, Padded};

use crate::{SET_WORDS, WORD_BITS};
use sizes::{HIGHEST, SUMS};

// A bit for each sum from 0 to 511.
pub type SumSet = [u64; SET_WORDS];

// A word of a table as it stands from bit m of word q on: the one place that reads across two words.
#[tactic(auto, using(crate::specs::Bits::bit_window))]
fn window(t: &[u64], q: usize, m: usize) -> u64
    requires { (q + 1 < length t.now) × (m < word_bits) }
    ensures { (c : ℕ) → c < word_bits → bit result c ≡ has t.now (word_bits * q + (m + c)) }
{
    (t[q] >> m) | ((t[q + 1] << 1) << (WORD_BITS - 1 - m))
}

// The set with the sums that a table has from bit p on.
pub fn joined(mut set: SumSet, t: &[u64], p: usize) -> SumSet
    requires { p / word_bits + set_words < length t.now }
    ensures { (b : ℕ) → b < sums → has result b ≡ (has set b || has t.now (p + b)) }
{
    let q = p / WORD_BITS;
    let m = p % WORD_BITS;
    for j in 0..SET_WORDS {
        set[j] |= window(t, q + j, m);
    }
    set
}

// Whether word i of a table and another from bit m of word q on have a bit in common.
#[tactic(auto, using(crate::specs::Sets::word_shares))]
fn shares(f: &[u64], i: usize, g: &[u64], q: usize, m: usize) -> bool
    requires { (i < length f.now) × (q + 1 < length g.now) × (m < word_bits) }
    ensures { result ≡ any (both f.now (word_bits * i) g.now (word_bits * q + m)) word_bits }
{
    f[i] & window(g, q, m) != 0
}

// Whether a table from word a on and another from bit p on have a sum in common.
pub fn meets(f: &[u64], a: usize, g: &[u64], p: usize) -> bool
    requires { (a + set_words ≤ length f.now) × (p / word_bits + set_words < length g.now) }
    ensures { result ≡ any (both f.now (word_bits * a) g.now p) sums }
{
    let q = p / WORD_BITS;
    let m = p % WORD_BITS;
    (0..SET_WORDS).any(|j| shares(f, a + j, g, q + j, m))
}

// Writes a set into a table, from word `at` on.
#[tactic(auto, using(crate::specs::Sets::put_part))]
pub fn put(t: &mut [u64], at: usize, set: SumSet)
    requires { at + set_words ≤ length t.old }
    ensures { Put set t.old t.new at set_words }
{
    t[at..at + SET_WORDS].copy_from_slice(&set);
}

// A set between two empty ones.
fn padded(set: SumSet) -> [u64; 3 * SET_WORDS]
    ensures { Padded set result }
{
    let mut t = [0; 3 * SET_WORDS];
    put(&mut t, SET_WORDS, set);
    t
}

// The set of the sums from low to high: those from 0 to high - low, moved up by low.
#[tactic(auto, using(crate::specs::Sets::range_has))]
pub fn range(low: usize, high: usize) -> SumSet
    requires { (low ≤ high) × (high ≤ highest) }
    ensures { (b : ℕ) → b < sums → has result b ≡ within low high b }
{
    let none = [0; SET_WORDS];
    let all = padded([u64::MAX; SET_WORDS]);
    let first = joined(none, &all, SUMS + HIGHEST - (high - low));
    let moved = padded(first);
    joined(none, &moved, SUMS - low)
}
