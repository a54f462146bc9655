#![tactic(auto)]

// Lists by their members and by their places, and sums over them: see specs/. No code.
