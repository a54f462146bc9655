// The sizes of document 01 and of request R-1, each under one name, and the two refusals that every row shares.
#![tactic(auto)]

ghost use Rattle.std.specs.Prelude.{◌≡◌};
ghost use Rattle.told.specs.Told.{refusal_in};
ghost use Rattle.sizes.specs.Sizes.{length_refuses, limits_refuse};

use told::Refusal;

pub const VALUES: usize = 32;

pub const ROW_CELLS: usize = 10;

pub const HIGHEST: usize = 511;

pub const SUMS: usize = 512;

pub const TABLE: usize = 5632;

pub const BOARD_CELLS: usize = 64;

pub const BOARD_ROWS: usize = 32;

pub const STACK: usize = 4096;

pub const FILE: usize = 1062;

// Whether a row may have this many cells: no, with 1, or yes.
pub fn length_refuses(cells: usize) -> Result<(), Refusal>
    ensures { refusal_in result ≡ length_refuses cells }
{
    if cells == 0 || ROW_CELLS < cells {
        return Err(Refusal::Length);
    }
    Ok(())
}

// Whether a row may have these limits: no, with 2, or yes.
pub fn limits_refuse(low: usize, high: usize) -> Result<(), Refusal>
    ensures { refusal_in result ≡ limits_refuse low high }
{
    if high < low || HIGHEST < high {
        return Err(Refusal::Limits);
    }
    Ok(())
}
