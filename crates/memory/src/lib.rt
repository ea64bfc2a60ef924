// Words of a state in lent memory: the few functions that read and write them. Every function takes any words and any numbers;
// past the end a read is 0 and a write does nothing.
#![tactic(auto)]

ghost use Rattle.std.specs.Prelude.{◌≡◌, get_or, set};
ghost use Rattle.memory.specs.Memory.{value_word, value_in};
ghost use Rattle.memory.specs.Writes.{frame_place};

use machine::Value;

// Where a frame is in the program.
#[derive(Clone, Copy)]
pub struct Place {
    pub method: usize,
    pub address: usize,
}

// The word of a value.
fn word_of(v: Value) -> u64
    ensures word { result ≡ value_word v }
    ensures reads { value_in (value_word v) ≡ v }
{
    match v {
        Value::Number(z) => z.cast_unsigned() as u64,
        Value::Reference(o) => 4294967296 + o as u64,
    }
}

// A word of memory, 0 past its end.
pub fn word_at(ws: &[u64], i: usize) -> usize
    ensures value { result ≡ get_or ws.now i 0 }
{
    ws.get(i).copied().unwrap_or(0) as usize
}

// A word of memory written; nothing past its end.
pub fn put_word(ws: &mut [u64], i: usize, w: u64)
    ensures memory { ws.new ≡ set ws.old i w }
{
    // Stays: the contract of `get_mut` says nothing of the words after a write through it.
    if i < ws.len() {
        ws[i] = w;
    }
}

// A value written. `reads`: it reads back.
pub fn put_value(ws: &mut [u64], i: usize, v: Value)
    ensures memory { ws.new ≡ set ws.old i (value_word v) }
    ensures reads { value_in (value_word v) ≡ v }
{
    put_word(ws, i, word_of(v));
}

// Where frame `top` is in the program.
pub fn place_of(frames: &[u64], top: u8) -> Place
    ensures method { result.method ≡ get_or frames.now (frame_place top 0) 0 }
    ensures address { result.address ≡ get_or frames.now (frame_place top 1) 0 }
{
    let at = 19 * (top as usize);
    Place {
        method: word_at(frames, at),
        address: word_at(frames, at + 1),
    }
}
