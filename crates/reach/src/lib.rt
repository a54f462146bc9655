// Which values some good filling of a row uses, by sets of reachable sums, without counting: see inner.rt.
#![tactic(auto)]

pub mod inner;
