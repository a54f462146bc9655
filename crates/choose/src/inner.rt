// The choice for the floors above, which have made sure that the board is sound, its domains are settled and the tables long enough.
ghost use Rattle.std.specs.Prelude.{◌≡◌, true, [], ◌≤◌, ◌<◌, ◌^◌, length, IfSome};
ghost use Rattle.sizes.specs.Sizes.{values};
ghost use Rattle.listing.specs.Listing.{keep};
ghost use Rattle.counting.specs.Counting.{lists, listed};
ghost use Rattle.board.specs.Sound.{SoundLine};
ghost use Rattle.settling.specs.Settling.{Supported};
ghost use Rattle.settling.specs.Boards.{row_of, rows_of};
ghost use Rattle.choosing.specs.Choosing.{candidate, of_place, of_row, candidates, some_empty, choose as choice};
ghost use Rattle.choosing.specs.Going.{nobody, through, outcome};
ghost use Rattle.beat.specs.Beat.{ties_of, candidate_of, leader_of};
ghost use Rattle.choose.specs.Advice.{told, cleared};
ghost use Rattle.choose.specs.Rooms.{SameRooms};
ghost use Rattle.choose.specs.Rows.{line_of};
ghost use Rattle.choose.specs.Steps.{Choosable, Kept, After};

use crate::best::Best;
use crate::ready::ReadyRow;
use crate::{Advice, Tables};
use beat::inner::with_listed;
use beat::{Candidate, Ties};
use board::{Board, Row};
use fraction::inner::share;
use settle::inner::gather_row;
use sizes::{ROW_CELLS, VALUES};

// Chooses a move, and leaves zeros in the first 5,632 entries of the tables.
pub fn choose(ties: Ties, board: Board, domains: &[u32], tables: &mut Tables<'_>) -> Advice
    requires { Choosable board domains.now }
    ensures result_value { told result ≡ choice (ties_of ties) (rows_of board) domains.now }
    ensures same_rooms { SameRooms tables.old tables.new }
    ensures forward_after { (tables.new.forward.now ≡ cleared tables.old.forward.now) × (tables.new.backward.now ≡ cleared tables.old.backward.now) }
{
    let advice = chosen(ties, board, domains, tables);
    tables.clear();
    advice
}

// The choice; the first 5,632 entries of the tables are left in use.
fn chosen(ties: Ties, board: Board, domains: &[u32], tables: &mut Tables<'_>) -> Advice
    requires { Choosable board domains.now }
    ensures result_value { told result ≡ choice (ties_of ties) (rows_of board) domains.now }
    ensures kept { Kept tables.old tables.new }
{
    if some_empty(domains) {
        return Advice::Dead;
    }
    advice_of(with_rows(ties, board, domains, tables))
}

// Whether some domain is empty.
#[tactic(auto, using(crate::specs::AdviceLaws::any_empty))]
fn some_empty(domains: &[u32]) -> bool
    ensures { result ≡ some_empty domains.now }
{
    domains.contains(&0)
}

// The advice that the best candidate comes to, where no domain is empty.
fn advice_of(leader: Option<Candidate>) -> Advice
    requires { IfSome leader (λ x. (x.count ≤ 2 ^ 50) × (0 < x.total) × (x.total ≤ 2 ^ 50)) }
    ensures { told result ≡ outcome (leader_of leader) }
{
    match leader {
        None => Advice::Settled,
        Some(x) => Advice::Advise {
            cell: x.cell,
            value: x.value,
            row: x.row,
            count: x.count,
            total: x.total,
            share: share(x.count, x.total),
        },
    }
}

// The best candidate of all.
fn with_rows(
    ties: Ties,
    board: Board,
    domains: &[u32],
    tables: &mut Tables<'_>,
) -> Option<Candidate>
    requires { Choosable board domains.now }
    ensures result_value { leader_of result ≡ through (ties_of ties) nobody (candidates (rows_of board) domains.now) }
    ensures kept { Kept tables.old tables.new }
{
    let mut best = Best::new(ties);
    for i in 0..board.rows {
        best = with_row(best, i, board.lines[i], domains, tables);
    }
    best.leader
}

// The best so far, with those of row i. Its tables are filled once.
fn with_row(best: Best, i: usize, line: Row, domains: &[u32], tables: &mut Tables<'_>) -> Best
    requires { SoundLine (length domains.now) line × Supported domains.now (row_of line) }
    ensures after { After best (of_row i (row_of line) domains.now) result }
    ensures kept { Kept tables.old tables.new }
{
    let names = &line.names[..line.len];
    let weights = &line.weights[..line.len];
    let mut room = [0u32; ROW_CELLS];
    let part = &mut room[..line.len];
    gather_row(domains, names, part);
    let total = tables.fill(weights, part, line.low, line.high);
    let row = ReadyRow {
        row: i,
        names,
        weights,
        low: line.low,
        high: line.high,
        total,
        domains,
        part,
        tables,
    };
    row.with_places(best)
}

impl ReadyRow<'_, '_> {
    // The best so far, with the candidates of this row.
    fn with_places(self, mut best: Best) -> Best
        ensures { After best (of_row self.entry.row (line_of self.entry) self.entry.domains.now) result }
    {
        for p in 0..self.names.len() {
            best = self.with_place(best, p);
        }
        best
    }

    // The same with those of the cell at place p.
    fn with_place(self, mut best: Best, p: usize) -> Best
        requires { p < length self.names.now }
        ensures { After best (of_place self.entry.row (line_of self.entry) self.entry.domains.now p) result }
    {
        let domain = self.domains[self.names[p]];
        if values_in(domain) < 2 {
            return best;
        }
        for v in 0..VALUES {
            best = best.with_listed(self.candidate(p, v), domain);
        }
        best
    }

    // The value v at place p, with its count.
    fn candidate(self, p: usize, v: usize) -> Candidate
        requires { (p < length self.names.now) × (v < values) }
        ensures { candidate_of result ≡ candidate self.entry.row (line_of self.entry) self.entry.domains.now p v }
    {
        Candidate {
            row: self.row,
            cell: self.names[p],
            value: v,
            count: self
                .tables
                .count(self.weights, self.part, self.low, self.high, p, v),
            total: self.total,
        }
    }
}

// How many values a domain lists.
#[tactic(auto, using(crate::specs::StepLaws::ones_listed))]
fn values_in(domain: u32) -> u32
    ensures { result ≡ length (listed domain) }
{
    domain.count_ones()
}

impl Best {
    // With a candidate whose value is listed by the domain; one that is not listed is none.
    fn with_listed(self, x: Candidate, domain: u32) -> Best
        requires { (x.value < values) × (lists domain x.value ≡ true → 0 < x.total) }
        ensures { After self (keep (lists domain x.value) (candidate_of x) []) result }
    {
        Best {
            ties: self.ties,
            leader: with_listed(self.ties, self.leader, x, domain),
        }
    }
}
