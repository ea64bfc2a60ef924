// Instructions that stay in their frame, done in the lent slices.
#![tactic(auto)]

ghost use Rattle.std.specs.Prelude.{◌≡◌};
ghost use Rattle.drive.specs.Models.{done, held, Same};
ghost use Rattle.work.specs.Work.{seen_in, worked_on, done_by, performed};

use drive::Lent;
use site::{Binop, Branch, Class, Gone, Iget, Iput, Kind, Plain, Seen, Sget, Site, Sput, Work};

// What the instruction at a site looks at.
fn seen(m: &Lent, s: Site) -> Seen
    ensures value { result ≡ seen_in (held m.now) s }
{
    let w = site::wanted(s);
    let first = store::register_at(m.frames, s.top, w.first, w.none);
    let i = first.place();
    Seen {
        first,
        second: store::register_at(m.frames, s.top, w.second, w.none),
        result: store::result_at(m.frames, s.top, w.none),
        class: store::class_at(m.objects, i, w.class),
        cell: store::cell_at(m.objects, i, w.field, w.none),
        fixed: store::element_at(m.statics, w.fixed, w.none),
    }
}

// What an instruction of frame `top` writes.
fn put(m: &mut Lent, top: usize, e: Work)
    ensures memory { held m.new ≡ worked_on (held m.old) top e }
    ensures same { Same m.old m.new }
{
    store::put_register(m.frames, top, e.to, e.value);
    store::put_cell(m.objects, e.object, e.cell, e.value);
    store::put_element(m.statics, e.fixed, e.value);
    store::put_address(m.frames, top, e.address);
}

// An instruction of a kind. It is compiled apart for each.
#[tactic(auto, unfolding(crate::specs::Work::worked))]
fn done_by<K: Kind>(t: &[u64; 768], m: &mut Lent, s: Site) -> Gone
    ensures after { done result (held m.new) ≡ done_by K.instruction t.now (held m.old) s }
    ensures same { Same m.old m.new }
{
    let e = K::work(t, s, seen(m, s));
    put(m, s.top, e);
    e.gone
}

// The instruction at a site. One that does not stay in its frame is not done here. Each opcode of these has an arm of its own: several in
// one arm are compiled as a test apart from the table of arms, and a step of nop or of a class passes it.
pub fn perform(t: &[u64; 768], m: &mut Lent, s: Site) -> Gone
    ensures after { done result (held m.new) ≡ performed t.now (held m.old) s }
    ensures same { Same m.old m.new }
{
    match s.opcode {
        5 => done_by::<Binop>(t, m, s),
        4 => done_by::<Branch>(t, m, s),
        8 => done_by::<Iget>(t, m, s),
        9 => done_by::<Iput>(t, m, s),
        10 => done_by::<Sget>(t, m, s),
        11 => done_by::<Sput>(t, m, s),
        7 => site::left(s),
        12 => site::left(s),
        13 => site::left(s),
        16 => site::left(s),
        17 => site::left(s),
        18 => site::left(s),
        19 | 20 => done_by::<Class>(t, m, s),
        _ => done_by::<Plain>(t, m, s),
    }
}
