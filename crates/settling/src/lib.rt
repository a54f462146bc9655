#![tactic(auto)]

// What settling a board means, and its laws: see specs/ and proofs/. No code.
