// When a state lies in the lent slices, and what steps make of them (specs/ and proofs/). No code.
#![tactic(auto)]
