// The lines that are printed of a state: frames, objects and statics as they lie in lent memory.
#![tactic(auto)]

ghost use Rattle.std.specs.Prelude.{◌∷◌, ◌+◌, ◌≤◌, ◌<◌, min};
ghost use Rattle.page.specs.OnPage.{PutOn};
ghost use Rattle.program.specs.Tables.{program_in};
ghost use Rattle.rows.specs.Rows.{word_text, row_text, frame_row, frame_rows, object_rows, static_rows, state_rows};

use page::Page;

// Puts a word that holds a value, a space before it.
fn put_value(page: &mut Page<'_>, word: usize)
    ensures put { PutOn page.old (32 ∷ word_text word) page.new }
{
    page.byte(b' ');
    if word < 4294967296 {
        page.eight(word);
    } else {
        page.byte(b'@');
        page.two(word);
    }
}

// Puts a line: a name, some numbers of two digits, some values, a space before each.
fn put_row(page: &mut Page<'_>, name: &[u8], words: &[u64], from: usize, heads: usize, cells: usize)
    requires { from + heads + cells ≤ 65536 }
    ensures put { PutOn page.old (row_text name.now words.now from heads cells) page.new }
{
    page.put(name);
    for i in 0..heads {
        page.byte(b' ');
        page.two(memory::word_at(words, from + i));
    }
    for i in 0..cells {
        put_value(page, memory::word_at(words, from + heads + i));
    }
    page.byte(b'\n');
}

// Puts the line of frame i.
fn put_frame(page: &mut Page<'_>, t: &[u64; 768], frames: &[u64], i: usize)
    requires { i < 32 }
    ensures put { PutOn page.old (frame_row (program_in t.now) frames.now i) page.new }
{
    let method = memory::word_at(frames, 19 * i);
    let registers = program::registers(t, method);
    put_row(page, b"frame", frames, 19 * i, 2, 1 + registers);
}

// Puts the lines of so many frames.
fn put_frames(page: &mut Page<'_>, t: &[u64; 768], frames: &[u64], depth: usize)
    ensures put { PutOn page.old (frame_rows (program_in t.now) frames.now (min depth 32)) page.new }
{
    for i in 0..depth.min(32) {
        put_frame(page, t, frames, i);
    }
}

// Puts the lines of so many objects.
fn put_objects(page: &mut Page<'_>, t: &[u64; 768], objects: &[u64], made: usize)
    ensures put { PutOn page.old (object_rows (program_in t.now) objects.now made) page.new }
{
    let fields = program::field_count(t);
    for i in 0..made.min(256) {
        put_row(page, b"object", objects, 17 * i, 1, fields);
    }
}

// Puts the lines of the statics.
fn put_statics(page: &mut Page<'_>, t: &[u64; 768], statics: &[u64])
    ensures put { PutOn page.old (static_rows (program_in t.now) statics.now) page.new }
{
    let count = program::static_count(t);
    for i in 0..count {
        put_row(page, b"static", statics, i, 0, 1);
    }
}

// Puts the lines of so many frames and objects, and of the statics.
pub fn put_state(
    page: &mut Page<'_>,
    t: &[u64; 768],
    frames: &[u64],
    depth: usize,
    objects: &[u64],
    made: usize,
    statics: &[u64],
)
    ensures put { PutOn page.old (state_rows (program_in t.now) frames.now depth objects.now made statics.now) page.new }
{
    put_frames(page, t, frames, depth);
    put_objects(page, t, objects, made);
    put_statics(page, t, statics);
}
