// Fills the tables for the floors above, which have made sure that the row is sound and the tables long enough. A layer is 512 numbers, one for each sum.
ghost use Rattle.std.specs.Prelude.{◌≡◌, ℕ, ◌+◌, ◌-◌, ◌*◌, ◌^◌, ◌<◌, ◌≤◌, length, get_or};
ghost use Rattle.told.specs.Told.{when};
ghost use Rattle.sizes.specs.Sizes.{values, row_cells, highest, sums, table_size};
ghost use Rattle.listing.specs.Listing.{onto};
ghost use Rattle.listing.specs.Written.{Written};
ghost use Rattle.counting.specs.Counting.{lists, within};
ghost use Rattle.layers.specs.Tables.{forward_table, backward_table};
ghost use Rattle.layers.specs.Steps.{Fillable, moved, step};

use sizes::{HIGHEST, SUMS, VALUES};

// Fills both tables of a row. The parameters stand one by one, as the public calls hand them on from the C interface.
pub fn fill(
    weights: &[u8],
    domains: &[u32],
    low: usize,
    high: usize,
    forward: &mut [u64],
    backward: &mut [u64],
)
    requires { Fillable weights.now domains.now low high forward.old backward.old }
    ensures forward_after { forward.new ≡ onto (forward_table weights.now domains.now) forward.old }
    ensures backward_after { backward.new ≡ onto (backward_table weights.now domains.now low high) backward.old }
{
    fill_forward(weights, domains, forward);
    fill_backward(weights, domains, low, high, backward);
}

// The forward table: the layer at 0, and then each from the one below it.
fn fill_forward(weights: &[u8], domains: &[u32], table: &mut [u64])
    requires { (length domains.now ≤ row_cells) × (length weights.now ≡ length domains.now) × (table_size ≤ length table.old) }
    ensures { table.new ≡ onto (forward_table weights.now domains.now) table.old }
{
    start(table, 0, 0, 0);
    for i in 0..domains.len() {
        let arcs = Arcs {
            rise: weights[i],
            fall: 0,
            domain: domains[i],
        };
        let from = SUMS * i;
        arcs.next(table, from, from + SUMS);
    }
}

// The backward table: the last layer, and then each from the one above it.
fn fill_backward(weights: &[u8], domains: &[u32], low: usize, high: usize, table: &mut [u64])
    requires { (high ≤ highest) × (length domains.now ≤ row_cells) × (length weights.now ≡ length domains.now) × (table_size ≤ length table.old) }
    ensures { table.new ≡ onto (backward_table weights.now domains.now low high) table.old }
{
    let n = domains.len();
    start(table, low, high, SUMS * n);
    for i in (0..n).rev() {
        let arcs = Arcs {
            rise: 0,
            fall: weights[i],
            domain: domains[i],
        };
        let to = SUMS * i;
        arcs.next(table, to + SUMS, to);
    }
}

// The layer of a row with no cells: one way to choose nothing, where the sum is from low to high. Place by place: two calls of `fill` were slower.
fn start(table: &mut [u64], low: usize, high: usize, at: usize)
    requires { at + sums ≤ length table.old }
    ensures { Written (λ k. when (within low high (k - at)) 1) table.old table.new at (at + sums) }
{
    for b in 0..SUMS {
        table[at + b] = one_within(low, high, b);
    }
}

// 1 where b is from low to high, else 0.
fn one_within(low: usize, high: usize, b: usize) -> u64
    ensures { result ≡ when (within low high b) 1 }
{
    u64::from(low <= b && b <= high)
}

// The arcs of a cell from one layer to the one beside it: each value v that the domain lists leads up by rise * v and down by fall * v sums.
#[derive(Clone, Copy)]
struct Arcs {
    rise: u8,
    fall: u8,
    domain: u32,
}

impl Arcs {
    // Writes at `to` the layer that follows from the one at `from`: made in a copy, and stored.
    fn next(self, table: &mut [u64], from: usize, to: usize)
        requires { (from + sums ≤ length table.old) × (to + sums ≤ length table.old) × ((b : ℕ) → b < sums → step table.old from self.rise self.fall self.domain b < 2 ^ 64) }
        ensures { Written (λ k. step table.old from self.rise self.fall self.domain (k - to)) table.old table.new to (to + sums) }
    {
        let made = self.layer(&table[from..from + SUMS]);
        table[to..to + SUMS].copy_from_slice(&made);
    }

    // The layer that follows from another: the sum of what each listed value brings.
    #[tactic(auto, using(crate::specs::StepLaws::brings))]
    fn layer(self, from: &[u64]) -> [u64; SUMS]
        requires { (length from.now ≡ sums) × ((b : ℕ) → b < sums → step from.now 0 self.rise self.fall self.domain b < 2 ^ 64) }
        ensures { (b : ℕ) → b < sums → get_or result b 0 ≡ step from.now 0 self.rise self.fall self.domain b }
    {
        let mut made = [0u64; SUMS];
        for v in 0..VALUES {
            self.push(&mut made, from, v);
        }
        made
    }

    // Adds what the value v brings, if it is listed: the layer `from`, moved along its arc. What would be moved past the last sum is left out.
    #[tactic(auto, using(crate::specs::StepLaws::moves))]
    fn push(self, made: &mut [u64; SUMS], from: &[u64], v: usize)
        requires { (length from.now ≡ sums) × (v < values) × ((b : ℕ) → b < sums → get_or made.old b 0 + when (lists self.domain v) (moved from.now 0 (self.rise * v) (self.fall * v) b) < 2 ^ 64) }
        ensures { (b : ℕ) → b < sums → get_or made.new b 0 ≡ get_or made.old b 0 + when (lists self.domain v) (moved from.now 0 (self.rise * v) (self.fall * v) b) }
    {
        if !lists(self.domain, v) {
            return;
        }
        let up = usize::from(self.rise) * v;
        let down = usize::from(self.fall) * v;
        if HIGHEST < up + down {
            return;
        }
        for b in up..SUMS - down {
            made[b] += from[b + down - up];
        }
    }
}

// Whether the domain d lists the value v.
pub fn lists(d: u32, v: usize) -> bool
    requires { v < values }
    ensures { result ≡ lists d v }
{
    (d >> v) % 2 == 1
}
