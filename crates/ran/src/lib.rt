// The run's loops reach what the stepper must answer (specs/ and proofs/). No code.
#![tactic(auto)]
