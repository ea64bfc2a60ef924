// Masks joined into the words of a claim: into one word, into the registers at an address, for exceptions, fields and arguments. Every
// function takes any tables, words and numbers. What it answers, the places that got new bits, guides the order of work and nothing else.
#![tactic(auto)]

pub mod exceptions; // exceptions.rt: rules 9 and 10 of the classes in a mask
pub mod rows; // rows.rt: registers and result that flow on, and the arguments of a call
pub mod start; // start.rt: rules 0 and 1, what a run starts with
pub mod masks; // masks.rt: masks that are made of others, and masks for fields
pub mod words; // words.rt: one word
