// Sets of the sums 0 to 511, each a bit of one of eight 64-bit words: see inner.rt.
#![tactic(auto)]

pub mod inner;

pub const WORD_BITS: usize = 64;

pub const SET_WORDS: usize = 8;
