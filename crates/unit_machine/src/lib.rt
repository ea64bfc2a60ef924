// A machine over code units, and the theorem that it is in the state of the frames after every step (specs/ and proofs/). No code.
#![tactic(auto)]
