// Frames as text.
ghost use Rattle.std.specs.Prelude.{◌≡◌, ◌≤◌, length, take};
ghost use Rattle.page.specs.OnPage.{PutOn};
ghost use Rattle.units.specs.Translate.{frame_line, frame_lines};
ghost use Rattle.output.specs.Written.{fitting, answer_for, memory_after};

use output::Output;
use page::Page;

// Puts the frame of a word, and its line end.
fn put_line(page: &mut Page<'_>, word: u64)
    ensures put { PutOn page.old (frame_line word) page.new }
{
    page.two(6);
    page.put(&page::digits(word));
    page.byte(b'\n');
}

// Puts the frames of words.
fn put_lines(page: &mut Page<'_>, words: &[u64])
    ensures put { PutOn page.old (frame_lines words.now) page.new }
{
    for &word in words {
        put_line(page, word);
    }
}

// Puts the frames of the first words at the front of memory that has room for them; where it has not, nothing.
pub fn put_frames(memory: &mut [u8], words: &[u64], count: usize) -> Output
    requires { (count ≤ 32) × (32 ≤ length words.now) }
    ensures answer { let x = fitting (length memory.old) (frame_lines (take count words.now)) in
        result ≡ answer_for x }
    ensures memory { let x = fitting (length memory.old) (frame_lines (take count words.now)) in
        memory.new ≡ memory_after x memory.old }
{
    if memory.len() < 19 * count {
        return Output::Short;
    }
    let mut page = Page { out: memory, at: 0 };
    put_lines(&mut page, &words[..count]);
    Output::Written(19 * count)
}
