// The forward and the backward table of a row, layer by layer.
#![tactic(auto)]

pub mod inner;
