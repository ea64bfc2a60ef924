// Marks of addresses that wait to be visited, and of the addresses that read a slot. They guide the order of the work: no promise says
// anything of them. Every method takes any numbers.
use instruction::Instruction;
use raise::words::{CALLEES, OUT, STORED};

// Which of the readers the calls are: after those of each field and of each static.
const CALLS: usize = 32;

// The addresses that wait, a word a method and a bit an address, and in the same way the readers of each field and static, and the calls.
#[derive(Drop)]
pub struct Waits {
    waiting: [u64; 16],
    readers: [[u64; 16]; 33],
}

// Which readers an instruction is among.
fn reads(i: Instruction) -> Option<usize> {
    match i {
        Instruction::Iget { field, .. } => Some(field as usize),
        Instruction::Sget { place, .. } => Some(16 + place as usize),
        Instruction::InvokeVirtual { .. } => Some(CALLS),
        Instruction::InvokeStatic { .. } => Some(CALLS),
        _ => None,
    }
}

// Which readers wait for what an instruction stores.
fn stores(i: Instruction) -> Option<usize> {
    match i {
        Instruction::Iput { field, .. } => Some(field as usize),
        Instruction::Sput { place, .. } => Some(16 + place as usize),
        _ => None,
    }
}

// Adds bits to the word of a method, if there is one.
fn add(words: &mut [u64; 16], m: usize, bits: u64) {
    if let Some(word) = words.get_mut(m) {
        *word |= bits;
    }
}

impl Waits {
    // Nothing waits, and nothing reads.
    pub fn none() -> Self {
        Waits {
            waiting: [0; 16],
            readers: [[0; 16]; 33],
        }
    }

    // Lists the readers of each field and static, and the calls.
    pub fn list_readers(&mut self, t: &[u64; 768]) {
        for m in 0..program::method_count(t) {
            for pc in 0..program::code_length(t, m) {
                if let Some(kind) = reads(program::instruction_at(t, m, pc)) {
                    if kind < 33 && pc < 64 {
                        add(&mut self.readers[kind], m, 1 << pc);
                    }
                }
            }
        }
    }

    // Adds the readers of one kind.
    fn add_readers(&mut self, kind: usize) {
        if let Some(readers) = self.readers.get(kind) {
            for (word, bits) in self.waiting.iter_mut().zip(readers) {
                *word |= *bits;
            }
        }
    }

    // Adds address 0 of each method in a set.
    fn add_entries(&mut self, set: u64) {
        for (m, word) in self.waiting.iter_mut().enumerate() {
            *word |= set >> m & 1;
        }
    }

    // Adds every address of the program.
    pub fn add_all(&mut self, t: &[u64; 768]) {
        for (m, word) in self.waiting.iter_mut().enumerate() {
            let n = program::code_length(t, m).min(32);
            *word |= (1 << n) - 1;
        }
    }

    // Adds what depends on the slots that got new bits at an address, by their marks: addresses of the method, entries of callees, calls,
    // and the readers of what was stored.
    pub fn add_dependents(&mut self, t: &[u64; 768], m: usize, pc: usize, news: u64) {
        add(&mut self.waiting, m, news & 4294967295);
        if news >> CALLEES == 0 {
            return;
        }
        self.add_entries(news >> CALLEES & 65535);
        if news >> OUT & 1 == 1 {
            self.add_readers(CALLS);
        }
        if news >> STORED & 1 == 1 {
            if let Some(kind) = stores(program::instruction_at(t, m, pc)) {
                self.add_readers(kind);
            }
        }
    }

    // Takes the lowest address of a method that waits.
    pub fn take(&mut self, m: usize) -> Option<usize> {
        let word = self.waiting.get_mut(m)?;
        if *word == 0 {
            return None;
        }
        let pc = word.trailing_zeros() as usize;
        *word &= *word - 1;
        Some(pc)
    }

    // The next method after m, in a circle, at which an address waits.
    pub fn next(&self, m: usize) -> Option<usize> {
        for k in 1..17 {
            let q = (m % 16 + k) % 16;
            if self.waiting[q] != 0 {
                return Some(q);
            }
        }
        None
    }
}
