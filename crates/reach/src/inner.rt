// Striking a row for the floors above, which have made sure that the row is sound.
ghost use Rattle.std.specs.Prelude.{◌≡◌, ◌||◌, not, ℕ, ◌+◌, ◌*◌, ◌^◌, ◌<◌, ◌≤◌, length};
ghost use Rattle.sizes.specs.Sizes.{values, row_cells, sums};
ghost use Rattle.sizes.specs.Sound.{SoundRow};
ghost use Rattle.listing.specs.Listing.{only};
ghost use Rattle.counting.specs.Counting.{listed, domain_of, forward, backward, strike, struck};
ghost use Rattle.words.specs.Words.{has};
ghost use Rattle.reach.specs.Reach.{layer_word, moved, reached, next, leads, uses, NewLayer, Marked, Clear};

use sizes::{HIGHEST, ROW_CELLS, VALUES};
use words::inner::{SumSet, joined, meets, put, range};
use words::{SET_WORDS, WORD_BITS};

const TABLE_WORDS: usize = SET_WORDS + (ROW_CELLS + 1) * 2 * SET_WORDS;

// A layer for each number of cells from 0 to 10: the sums that can be reached, in eight words between eight empty ones, so that a
// layer that is moved up or down never meets another.
type Table = [u64; TABLE_WORDS];

// The word of a table at which layer i begins.
fn layer_word(i: usize) -> usize
    requires { i ≤ row_cells }
    ensures { result ≡ layer_word i }
{
    2 * SET_WORDS * i + SET_WORDS
}

// The end of the values that a domain lists: past the greatest one. With 32 for every domain the Figure row costs twice as much.
fn values_end(domain: u32) -> usize
    ensures most { result ≤ values }
    ensures past { domain < 2 ^ result }
{
    VALUES - domain.leading_zeros() as usize
}

// ---- layers. A table is lent to be marked: returned, it would be copied, which is slower.

// From a layer to the next, whose sums are larger by what the cell between them brings, or back.
#[derive(Clone, Copy)]
enum Way {
    Forward,
    Backward,
}

impl Way {
    // From where a layer that begins at p is read, to move its sums by s.
    fn moved(self, p: usize, s: usize) -> usize
        requires { (s ≤ p) × (p + s < 2 ^ 64) }
        ensures { result ≡ moved self p s }
    {
        match self {
            Way::Forward => p - s,
            Way::Backward => p + s,
        }
    }
}

// A layer from which the sums are moved one way.
#[derive(Clone, Copy)]
struct Layer<'a> {
    table: &'a Table,
    i: usize,
    way: Way,
    ghost in_table: { i ≤ row_cells },
}

impl Layer<'_> {
    // Adds to a set what a value that brings s to the sum reaches from there.
    #[tactic(auto, unfolding(crate::specs::Reach::reached))]
    fn add_value(self, set: &mut SumSet, s: usize)
        ensures { (b : ℕ) → b < sums → has set.new b ≡ (has set.old b || reached self.entry.table.now self.entry.i self.entry.way s b) }
    {
        let Layer { table, i, way } = self;
        if s <= HIGHEST {
            *set = joined(*set, table, way.moved(WORD_BITS * layer_word(i), s));
        }
    }

    // What a cell reaches from there.
    fn next(self, weight: u8, domain: u32) -> SumSet
        ensures { (b : ℕ) → b < sums → has result b ≡ next self.entry.table.now self.entry.i self.entry.way weight domain b }
    {
        let mut set = [0; SET_WORDS];
        for v in 0..values_end(domain) {
            if (domain >> v) % 2 == 1 {
                self.add_value(&mut set, usize::from(weight) * v);
            }
        }
        set
    }
}

// Writes layer `to` of a table: what a cell reaches from layer `from`.
#[tactic(auto, using(crate::specs::Layers::new_layer))]
fn step(t: &mut Table, from: usize, to: usize, way: Way, weight: u8, domain: u32)
    requires { (from ≤ row_cells) × (to ≤ row_cells) }
    ensures { NewLayer (next t.old from way weight domain) t.old t.new to }
{
    let layer = Layer {
        table: t,
        i: from,
        way,
    };
    let set = layer.next(weight, domain);
    put(t, layer_word(to), set);
}

// Marks in an empty table where the forward numbers are above zero.
#[tactic(auto, using(crate::specs::Layers::forward_start, crate::specs::Layers::forward_more))]
fn mark_forward(weights: &[u8], domains: &[u32], t: &mut Table)
    requires { (length domains.now ≤ row_cells) × (length weights.now ≡ length domains.now) × Clear t.old }
    ensures { Marked (forward weights.now domains.now) t.new 0 (length domains.now + 1) }
{
    // the first layer has the sum 0 alone
    t[layer_word(0)] = 1;
    for i in 0..domains.len() {
        step(t, i, i + 1, Way::Forward, weights[i], domains[i]);
    }
}

// Marks in an empty table where the backward numbers are above zero.
#[tactic(auto, using(crate::specs::Layers::backward_start, crate::specs::Layers::backward_more))]
fn mark_backward(weights: &[u8], domains: &[u32], low: usize, high: usize, t: &mut Table)
    requires { SoundRow weights.now domains.now low high × Clear t.old }
    ensures { Marked (backward weights.now domains.now low high) t.new 0 (length domains.now + 1) }
{
    let n = domains.len();
    put(t, layer_word(n), range(low, high));
    for i in (0..n).rev() {
        step(t, i + 1, i, Way::Backward, weights[i], domains[i]);
    }
}

// ---- striking

// What is left of a domain, and how many of its values are gone.
#[derive(Clone, Copy)]
struct Cell {
    domain: u32,
    gone: usize,
}

// A place in a row, between the sums that are reached before it and those that lead on after it.
#[derive(Clone, Copy)]
struct Place<'a> {
    forward: &'a Table,
    backward: &'a Table,
    i: usize,
    ghost in_row: { i < row_cells },
}

impl Place<'_> {
    // Whether the tables have a use for a value that brings s to the sum.
    #[tactic(auto, unfolding(crate::specs::Reach::leads))]
    fn uses(self, s: usize) -> bool
        ensures { result ≡ leads self.entry.forward.now self.entry.backward.now self.entry.i s }
    {
        let Place {
            forward,
            backward,
            i,
        } = self;
        let after = WORD_BITS * layer_word(i + 1);
        s <= HIGHEST && meets(forward, layer_word(i), backward, after + s)
    }

    // Strikes the cell there.
    fn strike(self, weight: u8, domain: u32) -> Cell
        ensures left { result.domain ≡ domain_of (only (uses self.entry.forward.now self.entry.backward.now self.entry.i weight) (listed domain)) }
        ensures lost { result.gone ≡ length (only (λ v. not (uses self.entry.forward.now self.entry.backward.now self.entry.i weight v)) (listed domain)) }
    {
        let mut cell = Cell { domain: 0, gone: 0 };
        for v in 0..values_end(domain) {
            if (domain >> v) % 2 == 1 {
                if self.uses(usize::from(weight) * v) {
                    cell.domain += 1 << v;
                } else {
                    cell.gone += 1;
                }
            }
        }
        cell
    }
}

// Strikes from a row every value that no good filling uses, and answers how many. It takes two tables of 184 words, 2,944
// bytes, of stack.
pub fn strike(weights: &[u8], domains: &mut [u32], low: usize, high: usize) -> usize
    requires { SoundRow weights.now domains.old low high }
    ensures value { result ≡ struck weights.now domains.old low high }
    ensures domains_after { domains.new ≡ strike weights.now domains.old low high }
{
    let mut forward = [0; TABLE_WORDS];
    mark_forward(weights, domains, &mut forward);
    let mut backward = [0; TABLE_WORDS];
    mark_backward(weights, domains, low, high, &mut backward);
    let mut gone = 0;
    for i in 0..domains.len() {
        let place = Place {
            forward: &forward,
            backward: &backward,
            i,
        };
        let cell = place.strike(weights[i], domains[i]);
        domains[i] = cell.domain;
        gone += cell.gone;
    }
    gone
}
