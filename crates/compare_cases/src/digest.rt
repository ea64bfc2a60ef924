// A checksum of the program in tables: of the bytes that its frames have, made from what the tables say.
use super::number;
use frame::Kind;

// One byte more: the low one of a number.
fn mix(h: u64, b: u64) -> u64 {
    number::mix(h, b % 256)
}

fn mix_two(h: u64, a: usize, b: usize) -> u64 {
    mix(mix(h, a as u64), b as u64)
}

// The eight bytes of a word, the high one first.
fn mix_word(h: u64, w: u64) -> u64 {
    w.to_be_bytes().iter().fold(h, |sum, &b| mix(sum, b as u64))
}

fn mix_header(t: &[u64; 768], m: usize, h: u64) -> u64 {
    let class = mix_two(h, 4, program::method_class(t, m));
    let kind = mix_two(
        class,
        program::method_name(t, m),
        program::method_kind(t, m),
    );
    mix_two(kind, program::registers(t, m), program::arguments(t, m))
}

// The handler in line i.
fn mix_handler(t: &[u64; 768], m: usize, i: usize, h: u64) -> u64 {
    let j = program::from_last(program::handler_count(t, m), i);
    let range = mix_two(
        mix(h, 5),
        program::handler_from(t, m, j),
        program::handler_to(t, m, j),
    );
    mix_two(
        range,
        program::handler_target(t, m, j),
        program::handler_class(t, m, j),
    )
}

// One frame more.
fn mix_frame(t: &[u64; 768], k: Kind, m: usize, i: usize, h: u64) -> u64 {
    match k {
        Kind::Class => mix_two(h, 1, program::superclass(t, i)),
        Kind::Field => mix_two(h, 2, program::field_class(t, i)),
        Kind::Static => mix(h, 3),
        Kind::Header => mix_header(t, m, h),
        Kind::Handler => mix_handler(t, m, i, h),
        Kind::Code => mix_word(
            mix(h, 6),
            instruction::encode(program::instruction_at(t, m, i)),
        ),
        Kind::Unknown => h,
    }
}

// How many frames of a kind stand together.
fn count(t: &[u64; 768], k: Kind, m: usize) -> usize {
    match k {
        Kind::Class => program::class_count(t),
        Kind::Field => program::field_count(t),
        Kind::Static => program::static_count(t),
        Kind::Header => 1,
        Kind::Handler => program::handler_count(t, m),
        Kind::Code => program::code_length(t, m),
        Kind::Unknown => 0,
    }
}

fn mix_frames(t: &[u64; 768], k: Kind, m: usize, h: u64) -> u64 {
    (0..count(t, k, m)).fold(h, |sum, i| mix_frame(t, k, m, i, sum))
}

fn mix_method(t: &[u64; 768], m: usize, h: u64) -> u64 {
    let header = mix_frames(t, Kind::Header, m, h);
    let code = mix_frames(t, Kind::Code, m, header);
    mix_frames(t, Kind::Handler, m, code)
}

// The checksum of all frames, in the order of the text.
pub fn checksum(t: &[u64; 768]) -> u64 {
    let classes = mix_frames(t, Kind::Class, 0, 0);
    let fields = mix_frames(t, Kind::Field, 0, classes);
    let statics = mix_frames(t, Kind::Static, 0, fields);
    (0..program::method_count(t)).fold(statics, |sum, m| mix_method(t, m, sum))
}

// How many frames of a kind all methods have.
pub fn total(t: &[u64; 768], k: Kind) -> u64 {
    let mut sum: u64 = 0;
    for m in 0..program::method_count(t) {
        sum = sum % 65536 + count(t, k, m) as u64 % 65536;
    }
    sum
}
