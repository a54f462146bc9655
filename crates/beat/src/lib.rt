// Which of two candidates beats the other, and the best so far.
#![tactic(auto)]

pub mod inner;

// Which value goes first where densities and cells are equal.
#[derive(Clone, Copy, Debug, PartialEq, Eq)]
pub enum Ties {
    Lowest,
    Highest,
}

// A triple of row, cell and value, with its count and its row's total. The total may be 0 while the value isn't known to be
// listed, so that it is above 0 is asked where candidates are compared, and not held here.
#[derive(Clone, Copy, Debug, PartialEq, Eq)]
pub struct Candidate {
    pub row: usize,
    pub cell: usize,
    pub value: usize,
    pub count: u64,
    pub total: u64,
}
