// Frames, their order and their counts.
#![tactic(auto)]

ghost use Rattle.std.specs.Prelude.{◌≡◌, ℕ, set};
ghost use Rattle.instruction.specs.Test.{passes, Holds};
ghost use Rattle.frame.specs.Frame.{kind_of, digits_of, may_stand, may_end};
ghost use Rattle.frame.specs.Places.{counted, place_of, stored, step_of, tables_with};

// The kind of a frame. `Header` is a method's own frame, `Code` an instruction's.
#[derive(Clone, Copy)]
pub enum Kind {
    Class,
    Field,
    Static,
    Header,
    Handler,
    Code,
    Unknown,
}

// The frames of each kind so far; instructions and handlers are those of the last method.
#[derive(Clone, Copy)]
pub struct Counts {
    pub classes: usize,
    pub fields: usize,
    pub statics: usize,
    pub methods: usize,
    pub code: usize,
    pub handlers: usize,
}

// Where a frame's fields go, where its count stands, and the new count.
#[derive(Clone, Copy)]
pub struct Place {
    pub word: usize,
    pub count: usize,
    pub value: usize,
}

// What a frame brings: a refusal's number or 0, and the counts after it.
#[derive(Clone, Copy)]
pub struct Step {
    pub number: usize,
    pub counts: Counts,
}

// The kind that a frame's first byte says.
#[tactic(auto, unfolding(crate::specs::Frame::kind_of))]
pub fn kind_of(n: u64) -> Kind
    ensures value { result ≡ kind_of n }
{
    match n {
        1 => Kind::Class,
        2 => Kind::Field,
        3 => Kind::Static,
        4 => Kind::Header,
        5 => Kind::Handler,
        6 => Kind::Code,
        _ => Kind::Unknown,
    }
}

// How many digits a frame of a kind has; 0 for an unknown kind.
pub fn digits_of(k: Kind) -> usize
    ensures value { result ≡ digits_of k }
{
    match k {
        Kind::Class => 4,
        Kind::Field => 4,
        Kind::Static => 2,
        Kind::Header => 12,
        Kind::Handler => 10,
        Kind::Code => 18,
        Kind::Unknown => 0,
    }
}

// Whether a frame of a kind may stand after so many frames.
fn may_stand(n: Counts, k: Kind) -> bool
    ensures value { result ≡ passes (may_stand n k) }
{
    match k {
        Kind::Class => n.classes < 60 && n.fields == 0 && n.statics == 0 && n.methods == 0,
        Kind::Field => 5 <= n.classes && n.fields < 16 && n.statics == 0 && n.methods == 0,
        Kind::Static => 5 <= n.classes && n.statics < 16 && n.methods == 0,
        Kind::Header => 5 <= n.classes && n.methods < 16 && (n.methods == 0 || 0 < n.code),
        Kind::Handler => 0 < n.methods && n.methods <= 16 && 0 < n.code && n.handlers < 8,
        Kind::Code => 0 < n.methods && n.methods <= 16 && n.code < 32 && n.handlers == 0,
        Kind::Unknown => false,
    }
}

// Whether the text may end after so many frames.
pub fn may_end(n: Counts) -> bool
    ensures value { result ≡ passes (may_end n) }
{
    5 <= n.classes && 0 < n.methods && 0 < n.code
}

// One frame more.
fn counted(n: Counts, k: Kind) -> Counts
    requires { Holds (may_stand n k) }
    ensures value { result ≡ counted n k }
{
    match k {
        Kind::Class => Counts {
            classes: n.classes + 1,
            ..n
        },
        Kind::Field => Counts {
            fields: n.fields + 1,
            ..n
        },
        Kind::Static => Counts {
            statics: n.statics + 1,
            ..n
        },
        Kind::Header => Counts {
            methods: n.methods + 1,
            code: 0,
            handlers: 0,
            ..n
        },
        Kind::Handler => Counts {
            handlers: n.handlers + 1,
            ..n
        },
        Kind::Code => Counts {
            code: n.code + 1,
            ..n
        },
        Kind::Unknown => n,
    }
}

// Where the next frame of a kind goes.
fn place_of(n: Counts, k: Kind) -> Place
    requires { Holds (may_stand n k) }
    ensures value { result ≡ place_of n k }
{
    let m = n.methods.saturating_sub(1);
    match k {
        Kind::Class => Place {
            word: 4 + n.classes,
            count: 0,
            value: n.classes + 1,
        },
        Kind::Field => Place {
            word: 64 + n.fields,
            count: 1,
            value: n.fields + 1,
        },
        Kind::Static => Place {
            word: 2,
            count: 2,
            value: n.statics + 1,
        },
        Kind::Header => Place {
            word: 80 + 3 * n.methods,
            count: 3,
            value: n.methods + 1,
        },
        Kind::Handler => Place {
            word: 640 + 8 * m + n.handlers,
            count: 82 + 3 * m,
            value: n.handlers + 1,
        },
        Kind::Code => Place {
            word: 128 + 32 * m + n.code,
            count: 81 + 3 * m,
            value: n.code + 1,
        },
        Kind::Unknown => Place {
            word: 768,
            count: 768,
            value: 0,
        },
    }
}

// Writes a word; past the end of the tables, nothing.
fn write(t: &mut [u64], i: usize, w: u64)
    ensures memory { t.new ≡ set t.old i w }
{
    if i < t.len() {
        t[i] = w;
    }
}

// Writes a frame's fields and its count.
fn store(t: &mut [u64; 768], at: Place, fields: u64)
    ensures memory { t.new ≡ stored t.old at fields }
{
    write(&mut *t, at.word, fields);
    write(&mut *t, at.count, at.value as u64);
}

// Takes a frame of a kind with these fields into the tables, or tells that it cannot stand after so many frames.
pub fn take(n: Counts, k: Kind, fields: u64, t: &mut [u64; 768]) -> Step
    ensures value { result ≡ step_of n k }
    ensures memory { t.new ≡ tables_with n k fields t.old }
{
    if !may_stand(n, k) {
        return Step {
            number: 4,
            counts: n,
        };
    }
    let at = place_of(n, k);
    store(t, at, fields);
    Step {
        number: 0,
        counts: counted(n, k),
    }
}
