// The choice of a move on a board whose domains are settled.
#![tactic(auto)]

mod best;
pub mod inner;
mod ready;

ghost use Rattle.std.specs.Prelude.{◌≡◌, ◌≤◌, ◌<◌, length};
ghost use Rattle.sizes.specs.Sizes.{values, table_size};
ghost use Rattle.sizes.specs.Sound.{SoundRow};
ghost use Rattle.listing.specs.Listing.{onto};
ghost use Rattle.counting.specs.Counting.{total, count};
ghost use Rattle.layers.specs.Tables.{forward_table, backward_table};
ghost use Rattle.row.specs.Cells.{Filled};
ghost use Rattle.choose.specs.Advice.{cleared};

use row::inner::{count, fill};
use sizes::TABLE;

// Two lent tables, each with room for any row.
#[derive(Drop)]
pub struct Tables<'a> {
    pub forward: &'a mut [u64],
    pub backward: &'a mut [u64],
    ghost rooms: { (table_size ≤ length forward.now) × (table_size ≤ length backward.now) },
}

impl Tables<'_> {
    ghost use Rattle.choose.specs.Rooms.{SameRooms};

    // Fills both for a row, and answers its total.
    fn fill(&mut self, weights: &[u8], domains: &[u32], low: usize, high: usize) -> u64
        requires { SoundRow weights.now domains.now low high }
        ensures same_rooms { SameRooms self.old self.new }
        ensures value { result ≡ total weights.now domains.now low high }
        ensures forward_after { self.new.forward.now ≡ onto (forward_table weights.now domains.now) self.old.forward.now }
        ensures backward_after { self.new.backward.now ≡ onto (backward_table weights.now domains.now low high) self.old.backward.now }
    {
        fill(weights, domains, low, high, self.forward, self.backward)
    }

    // The count of a place and a value in a row that they are filled for.
    fn count(
        &self,
        weights: &[u8],
        domains: &[u32],
        low: usize,
        high: usize,
        place: usize,
        value: usize,
    ) -> u64
        requires { Filled weights.now domains.now low high self.now.forward.now self.now.backward.now × (place < length domains.now) × (value < values) }
        ensures { result ≡ count weights.now domains.now low high place value }
    {
        count(
            weights,
            domains,
            low,
            high,
            place,
            value,
            self.forward,
            self.backward,
        )
    }

    // Zeros in the first 5,632 entries of both.
    fn clear(&mut self)
        ensures same_rooms { SameRooms self.old self.new }
        ensures cleared { (self.new.forward.now ≡ cleared self.old.forward.now) × (self.new.backward.now ≡ cleared self.old.backward.now) }
    {
        clear(self.forward);
        clear(self.backward);
    }
}

// Zeros in the first 5,632 entries of a table.
#[tactic(auto, using(crate::specs::AdviceLaws::fill_clears))]
fn clear(table: &mut [u64])
    requires { table_size ≤ length table.old }
    ensures { table.new ≡ cleared table.old }
{
    table[..TABLE].fill(0);
}

// What is advised. The share is for display: it decides nothing.
#[derive(Clone, Copy, Debug, PartialEq)]
pub enum Advice {
    Dead,
    Settled,
    Advise {
        cell: usize,
        value: usize,
        row: usize,
        count: u64,
        total: u64,
        share: f64,
    },
}
