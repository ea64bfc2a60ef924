// Values, frames and objects of the stepper's own, written as words into lent memory.
ghost use Rattle.std.specs.Prelude.{◌≡◌, ℕ, ◌+◌, ◌*◌, ◌<◌, ◌^◌, length};
ghost use Rattle.plain.specs.Words.{put, value_word_in, frame_word_in, object_word_in, each_word};

use cells::{Frame, Object, Value};

// A struct that is written as words, one after another: how many, and word j of it.
pub trait InWords: Copy {
    ghost SIZE: { ℕ };

    ghost word: { Self → ℕ → ℕ };

    const SIZE: usize;

    // Writes its words, from a place on.
    fn put(self, ws: &mut [u64], at: usize)
        requires { at + SIZE < 2 ^ 64 }
        ensures { ws.new ≡ put SIZE (word self) ws.old at };
}

// Writes structs as words, one after another from a place on.
pub fn put_all<T: InWords>(ws: &mut [u64], at: usize, xs: &[T])
    requires { at + T.SIZE * length xs.now < 2 ^ 64 }
    ensures memory { (d : T) → ws.new ≡ put (T.SIZE * length xs.now) (each_word T.SIZE T.word d xs.now) ws.old at }
{
    let mut at = at;
    for x in xs {
        x.put(&mut *ws, at);
        at += T::SIZE;
    }
}

impl InWords for Value {
    ghost SIZE = { 1 };

    ghost word = { value_word_in };

    const SIZE: usize = 1;

    fn put(self, ws: &mut [u64], at: usize) {
        memory::put_value(ws, at, self.into());
    }
}

// Method, address, result, 16 registers.
impl InWords for Frame {
    ghost SIZE = { 19 };

    ghost word = { frame_word_in };

    const SIZE: usize = 19;

    fn put(self, ws: &mut [u64], at: usize) {
        memory::put_word(&mut *ws, at, self.method as u64);
        memory::put_word(&mut *ws, at + 1, self.address as u64);
        self.result.put(&mut *ws, at + 2);
        put_all(ws, at + 3, &self.registers);
    }
}

// Class, 16 cells.
impl InWords for Object {
    ghost SIZE = { 17 };

    ghost word = { object_word_in };

    const SIZE: usize = 17;

    fn put(self, ws: &mut [u64], at: usize) {
        memory::put_word(&mut *ws, at, self.class as u64);
        put_all(ws, at + 1, &self.cells);
    }
}
