// What a step that does not stay in its frame comes to, of a state that lies in the lent slices (specs/ and proofs/). No code.
#![tactic(auto)]
