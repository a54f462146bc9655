// A row that is ready to be gone through: in a file of its own, since a definition names it that the contracts of its steps cite.
ghost use Rattle.settling.specs.Boards.{row_with};
ghost use Rattle.choose.specs.Steps.{Ready};

use crate::Tables;

// A row over settled domains, with its own domains and its total, and tables filled for it.
#[derive(Clone, Copy)]
pub struct ReadyRow<'a, 'b> {
    pub row: usize,
    pub names: &'a [usize],
    pub weights: &'a [u8],
    pub low: usize,
    pub high: usize,
    pub total: u64,
    pub domains: &'a [u32],
    pub part: &'a [u32],
    pub tables: &'a Tables<'b>,
    ghost ready: { Ready (row_with names.now weights.now low high) domains.now part.now total tables.now.forward.now tables.now.backward.now },
}
