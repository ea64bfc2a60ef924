// Lent memory, of words or of bytes: what stands in it before a case, and a checksum of it after the case.
use super::number;

// Word i becomes first + i.
pub fn count_words(words: &mut [u64], first: u64) {
    for (i, word) in words.iter_mut().enumerate() {
        *word = first.wrapping_add(i as u64);
    }
}

// A checksum with these words more.
pub fn mix_words(words: &[u64], h: u64) -> u64 {
    words.iter().fold(h, |sum, &word| number::mix(sum, word))
}

// Byte i becomes i mod 251.
pub fn count_bytes(bytes: &mut [u8]) {
    for (i, byte) in bytes.iter_mut().enumerate() {
        *byte = (i % 251) as u8;
    }
}

// A checksum of bytes.
pub fn mix_bytes(bytes: &[u8]) -> u64 {
    bytes
        .iter()
        .fold(0, |sum, &byte| number::mix(sum, byte as u64))
}
