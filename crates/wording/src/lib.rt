// The text of the claim that stands in words: how long it is, and the text itself. Every public function takes any tables and words.
#![tactic(auto)]

pub mod size; // size.rt: how long the text is
pub mod put; // put.rt: the text, put into a buffer
