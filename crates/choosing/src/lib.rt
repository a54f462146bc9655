#![tactic(auto)]

// What advising a move means, and its laws: see specs/ and proofs/. No code.
