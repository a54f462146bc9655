#![tactic(auto)]

// What finishing a board by search means, and its laws: see specs/ and proofs/. No code.
