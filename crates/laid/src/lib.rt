// The laws of a state in lent slices (proofs/). No code.
#![tactic(auto)]
