// What a call that writes a text to lent memory answers.
#![tactic(auto)]

#[derive(Clone, Copy)]
pub enum Output {
    // So many bytes stand at the front of memory.
    Written(usize),
    // A refusal, with its line.
    // Stays: clause `answer` of `writer::write_claim` gives C this number, by `answer_for`.
    Refused { number: usize, line: usize },
    // Memory is shorter than the text.
    Short,
}
