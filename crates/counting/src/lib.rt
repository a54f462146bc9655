#![tactic(auto)]

// What counting in a weighted row means, and its laws: see specs/ and proofs/. No code.
