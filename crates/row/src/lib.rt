// Counting in one row: the total, the count of a place and a value, and striking. Any input is taken; what is not a row is refused.
// The parameters stand one by one, and not in a struct, as the C interface has them.
#![tactic(auto)]

pub mod inner;

ghost use Rattle.std.specs.Prelude.{◌≡◌, length};
ghost use Rattle.told.specs.Told.{told, refusal_in};
ghost use Rattle.row.specs.Answers.{lists_refuse, row_refuses, count_refuses, total_says, count_says, strike_says, tables, row_leaves, count_leaves, strike_leaves};

use sizes::{TABLE, VALUES, length_refuses, limits_refuse};
use told::Refusal;

// The total: how many fillings of the row are good.
pub fn total(
    weights: &[u8],
    domains: &[u32],
    low: usize,
    high: usize,
    forward: &mut [u64],
    backward: &mut [u64],
) -> Result<u64, Refusal>
    ensures result_value { told result ≡ total_says weights.now domains.now low high forward.old backward.old }
    ensures backward_after { tables forward.new backward.new ≡ row_leaves weights.now domains.now low high forward.old backward.old }
{
    row_refuses(weights, domains, low, high, forward, backward)?;
    Ok(inner::fill(weights, domains, low, high, forward, backward))
}

// The count of a place and a value: how many good fillings have that value in that cell.
pub fn count(
    weights: &[u8],
    domains: &[u32],
    low: usize,
    high: usize,
    place: usize,
    value: usize,
    forward: &mut [u64],
    backward: &mut [u64],
) -> Result<u64, Refusal>
    ensures result_value { told result ≡ count_says weights.now domains.now low high place value forward.old backward.old }
    ensures backward_after { tables forward.new backward.new ≡ count_leaves weights.now domains.now low high place value forward.old backward.old }
{
    count_refuses(weights, domains, low, high, place, value, forward, backward)?;
    inner::fill(weights, domains, low, high, forward, backward);
    Ok(inner::count(weights, domains, low, high, place, value, forward, backward))
}

// Strikes from the domains every value whose count is 0, and answers how many.
pub fn strike(
    weights: &[u8],
    domains: &mut [u32],
    low: usize,
    high: usize,
    forward: &mut [u64],
    backward: &mut [u64],
) -> Result<u64, Refusal>
    ensures result_value { told result ≡ strike_says weights.now domains.old low high forward.old backward.old }
    ensures backward_after { tables forward.new backward.new ≡ row_leaves weights.now domains.old low high forward.old backward.old }
    ensures domains_after { domains.new ≡ strike_leaves weights.now domains.old low high forward.old backward.old }
{
    row_refuses(weights, domains, low, high, forward, backward)?;
    inner::fill(weights, domains, low, high, forward, backward);
    Ok(inner::strike(weights, domains, low, high, forward, backward))
}

// What every row call refuses.
fn row_refuses(
    weights: &[u8],
    domains: &[u32],
    low: usize,
    high: usize,
    forward: &[u64],
    backward: &[u64],
) -> Result<(), Refusal>
    ensures { refusal_in result ≡ row_refuses weights.now domains.now low high forward.now backward.now }
{
    lists_refuse(weights, domains)?;
    limits_refuse(low, high)?;
    if forward.len() < TABLE || backward.len() < TABLE {
        return Err(Refusal::Table);
    }
    Ok(())
}

// Whether the two lists make a row.
fn lists_refuse(weights: &[u8], domains: &[u32]) -> Result<(), Refusal>
    ensures { refusal_in result ≡ lists_refuse (length weights.now) (length domains.now) }
{
    length_refuses(domains.len())?;
    if weights.len() != domains.len() {
        return Err(Refusal::Length);
    }
    Ok(())
}

// What the count call refuses.
fn count_refuses(
    weights: &[u8],
    domains: &[u32],
    low: usize,
    high: usize,
    place: usize,
    value: usize,
    forward: &[u64],
    backward: &[u64],
) -> Result<(), Refusal>
    ensures { refusal_in result ≡ count_refuses weights.now domains.now low high place value forward.now backward.now }
{
    row_refuses(weights, domains, low, high, forward, backward)?;
    if domains.len() <= place || VALUES <= value {
        return Err(Refusal::Place);
    }
    Ok(())
}
