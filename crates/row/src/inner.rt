// Calls for the floors above, which have made sure of what each requires: fill a row's tables once, then count and strike from them.
// The parameters of the calls stand one by one, as the public calls hand them on from the C interface.
ghost use Rattle.std.specs.Prelude.{◌≡◌, true, ◌+◌, ◌*◌, ◌<◌, ◌≤◌, length};
ghost use Rattle.told.specs.Told.{when};
ghost use Rattle.sizes.specs.Sizes.{values, sums};
ghost use Rattle.listing.specs.Listing.{onto};
ghost use Rattle.counting.specs.Counting.{lists, total, count, strike, struck};
ghost use Rattle.layers.specs.Tables.{forward_table, backward_table};
ghost use Rattle.layers.specs.Steps.{Fillable};
ghost use Rattle.row.specs.Cells.{Filled, Countable, layer_of, ways, keeps, loses, kept_below, gone_below};

use layers::inner::lists;
use sizes::{SUMS, VALUES};

// Fills both tables, and answers the total.
pub fn fill(
    weights: &[u8],
    domains: &[u32],
    low: usize,
    high: usize,
    forward: &mut [u64],
    backward: &mut [u64],
) -> u64
    requires { Fillable weights.now domains.now low high forward.old backward.old }
    ensures value { result ≡ total weights.now domains.now low high }
    ensures forward_after { forward.new ≡ onto (forward_table weights.now domains.now) forward.old }
    ensures backward_after { backward.new ≡ onto (backward_table weights.now domains.now low high) backward.old }
{
    layers::inner::fill(weights, domains, low, high, forward, backward);
    backward[0]
}

// The count of a place and a value, from filled tables.
pub fn count(
    weights: &[u8],
    domains: &[u32],
    low: usize,
    high: usize,
    place: usize,
    value: usize,
    forward: &[u64],
    backward: &[u64],
) -> u64
    requires { Filled weights.now domains.now low high forward.now backward.now × (place < length domains.now) × (value < values) }
    ensures { result ≡ count weights.now domains.now low high place value }
{
    Place::new(forward, backward, place, weights[place], domains[place]).count(value)
}

// Strikes from the domains every value whose count is 0, by tables that are filled for the domains at entry, and answers how many.
pub fn strike(
    weights: &[u8],
    domains: &mut [u32],
    low: usize,
    high: usize,
    forward: &[u64],
    backward: &[u64],
) -> u64
    requires { Filled weights.now domains.old low high forward.now backward.now }
    ensures value { result ≡ struck weights.now domains.old low high }
    ensures domains_after { domains.new ≡ strike weights.now domains.old low high }
{
    let mut struck: u64 = 0;
    for i in 0..domains.len() {
        let cell = Place::new(forward, backward, i, weights[i], domains[i]).strike();
        domains[i] = cell.kept;
        struck += cell.gone;
    }
    struck
}

// What is left of a cell's domain, and how many of its values are gone.
#[derive(Clone, Copy)]
struct Cell {
    kept: u32,
    gone: u64,
}

// A place in a row: the forward numbers before its cell and the backward numbers after it, one for each sum, and the cell's weight and domain.
#[derive(Clone, Copy)]
struct Place<'a> {
    before: &'a [u64],
    after: &'a [u64],
    weight: u8,
    domain: u32,
    ghost countable: { Countable before.now after.now weight domain },
}

impl<'a> Place<'a> {
    // The place p of a row, by the row's filled tables.
    #[tactic(auto, using(crate::specs::CellLaws::layer_room))]
    fn new(forward: &'a [u64], backward: &'a [u64], p: usize, weight: u8, domain: u32) -> Place<'a>
        requires { Countable (layer_of forward.now p) (layer_of backward.now (p + 1)) weight domain }
        ensures before_value { result.before.now ≡ layer_of forward.now p }
        ensures after_value { result.after.now ≡ layer_of backward.now (p + 1) }
        ensures weight_value { result.weight ≡ weight }
        ensures domain_value { result.domain ≡ domain }
    {
        Place {
            before: layer_of(forward, p),
            after: layer_of(backward, p + 1),
            weight,
            domain,
        }
    }

    // The good fillings with the value v in the cell: forward numbers before it times backward numbers after it.
    #[tactic(auto, using(crate::specs::CellLaws::way_steps))]
    fn ways(&self, v: usize) -> u64
        requires { (v < values) × (lists self.now.domain v ≡ true) }
        ensures { let p = self.now in result ≡ ways p.before.now p.after.now (p.weight * v) }
    {
        let step = usize::from(self.weight) * v;
        let mut sum: u64 = 0;
        for b in 0..SUMS.saturating_sub(step) {
            sum += self.before[b] * self.after[step + b];
        }
        sum
    }

    // The count of the value v in the cell.
    fn count(&self, v: usize) -> u64
        requires { v < values }
        ensures { let p = self.now in result ≡ when (lists p.domain v) (ways p.before.now p.after.now (p.weight * v)) }
    {
        if !lists(self.domain, v) {
            return 0;
        }
        self.ways(v)
    }

    // Strikes the cell's domain.
    #[tactic(auto, using(crate::specs::CellLaws::strike_steps))]
    fn strike(&self) -> Cell
        ensures kept_value { let p = self.now in result.kept ≡ kept_below p.before.now p.after.now p.weight p.domain values }
        ensures gone_value { let p = self.now in result.gone ≡ gone_below p.before.now p.after.now p.weight p.domain values }
    {
        let mut kept: u32 = 0;
        let mut gone: u64 = 0;
        for v in 0..VALUES {
            let value = self.strike_value(v);
            kept += value.kept;
            gone += value.gone;
        }
        Cell { kept, gone }
    }

    // What the value v adds to the domain that is kept, and to the number of values gone.
    fn strike_value(&self, v: usize) -> Cell
        requires { v < values }
        ensures kept_value { let p = self.now in result.kept ≡ keeps p.domain (λ u. ways p.before.now p.after.now (p.weight * u)) v }
        ensures gone_value { let p = self.now in result.gone ≡ loses p.domain (λ u. ways p.before.now p.after.now (p.weight * u)) v }
    {
        if !lists(self.domain, v) {
            return Cell { kept: 0, gone: 0 };
        }
        if self.ways(v) == 0 {
            return Cell { kept: 0, gone: 1 };
        }
        Cell {
            kept: 1 << v,
            gone: 0,
        }
    }
}

// The layer of a table at i.
fn layer_of(table: &[u64], i: usize) -> &[u64]
    requires { sums * i + sums ≤ length table.now }
    ensures { result.now ≡ layer_of table.now i }
{
    let at = SUMS * i;
    &table[at..at + SUMS]
}
