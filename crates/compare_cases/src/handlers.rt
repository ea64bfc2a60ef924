// A checksum of the handler search: of the numbers that it answers in each method, at each address, for each class.
use super::number;

// The handler's number and one more; 0 where none fits.
fn answered(found: Option<usize>) -> u64 {
    match found {
        Some(h) => h as u64 % 255 + 1,
        None => 0,
    }
}

// The checksum of all answers.
pub fn checksum(t: &[u64; 768]) -> u64 {
    let mut sum = 0;
    for m in 0..program::method_count(t) {
        for pc in 0..program::code_length(t, m) {
            for c in 0..program::class_count(t) {
                sum = number::mix(sum, answered(search::handler_for(t, m, pc, c)));
            }
        }
    }
    sum
}
