// The kinds of instruction that stay in their frame, and what each comes to of what it looks at. What is likely stands first, so
// that it is compiled apart, and each effect that a kind comes to has an arm: `work_of` takes what never comes.
ghost use Rattle.std.specs.Prelude.{◌≡◌, ℕ};
ghost use Rattle.instruction.specs.declared.Instruction.{Instruction};
ghost use Rattle.program.specs.Tables.{program_in};
ghost use Rattle.site.specs.Work.{decided_in, binop_of, branch_of, iget_of, iput_of, sget_of, sput_of, plain_of, classed_of};

use super::{How, Seen, Site, Work, effects, field_a, field_b, field_c, field_d};
use instruction::Operation;
use machine::Effect;

// A kind of instruction that stays in its frame.
pub trait Kind {
    // The instruction of a word.
    ghost instruction: { ℕ → Instruction };

    // What the instruction at a site comes to.
    fn work(t: &[u64; 768], s: Site, e: Seen) -> Work
        ensures value { result ≡ decided_in (program_in t.now) s e (instruction s.word) };
}

// binop.
pub struct Binop;

impl Kind for Binop {
    ghost instruction = { binop_of };

    #[tactic(auto, unfolding(crate::specs::Work::decided_in))]
    fn work(t: &[u64; 768], s: Site, e: Seen) -> Work {
        let o = Operation::from(field_d(s.word));
        let did = decide::numbers::binop(field_a(s.word), o, e.first.into(), e.second.into());
        match did {
            Effect::Write { to, value } => effects::wrote(s.pc, to, value.into()),
            Effect::Fail { fault } => effects::goes_to(s.pc as u32, How::Failed(fault)),
            Effect::RaiseNew { class } => effects::goes_to(s.pc as u32, How::Raises(class)),
            _ => effects::work_of(s.pc, e.cell, e.fixed, did),
        }
    }
}

// if.
pub struct Branch;

impl Kind for Branch {
    ghost instruction = { branch_of };

    #[tactic(auto, unfolding(crate::specs::Work::decided_in))]
    fn work(t: &[u64; 768], s: Site, e: Seen) -> Work {
        let did = effects::branch(s.word, e.first, e.second);
        match did {
            Effect::Next => effects::goes_to(s.pc as u32 + 1, How::Went),
            Effect::Jump { target } => effects::goes_to(target, How::Went),
            Effect::Fail { fault } => effects::goes_to(s.pc as u32, How::Failed(fault)),
            _ => effects::work_of(s.pc, e.cell, e.fixed, did),
        }
    }
}

// iget.
pub struct Iget;

impl Kind for Iget {
    ghost instruction = { iget_of };

    #[tactic(auto, unfolding(crate::specs::Work::decided_in))]
    fn work(t: &[u64; 768], s: Site, e: Seen) -> Work {
        let did = decide::objects::get_field(
            t,
            e.class as usize,
            field_a(s.word),
            field_c(s.word),
            e.first.into(),
        );
        match did {
            Effect::Load { to, object, field } => effects::wrote(s.pc, to, e.cell),
            Effect::Fail { fault } => effects::goes_to(s.pc as u32, How::Failed(fault)),
            Effect::RaiseNew { class } => effects::goes_to(s.pc as u32, How::Raises(class)),
            _ => effects::work_of(s.pc, e.cell, e.fixed, did),
        }
    }
}

// iput.
pub struct Iput;

impl Kind for Iput {
    ghost instruction = { iput_of };

    #[tactic(auto, unfolding(crate::specs::Work::decided_in))]
    fn work(t: &[u64; 768], s: Site, e: Seen) -> Work {
        let stored = machine::Value::from(e.second);
        let did = decide::objects::put_field(
            t,
            e.class as usize,
            field_c(s.word),
            stored,
            e.first.into(),
        );
        match did {
            Effect::Store {
                object,
                field,
                value,
            } => effects::stored(s.pc, object, field, value.into()),
            Effect::Fail { fault } => effects::goes_to(s.pc as u32, How::Failed(fault)),
            Effect::RaiseNew { class } => effects::goes_to(s.pc as u32, How::Raises(class)),
            _ => effects::work_of(s.pc, e.cell, e.fixed, did),
        }
    }
}

// sget.
pub struct Sget;

impl Kind for Sget {
    ghost instruction = { sget_of };

    #[tactic(auto, unfolding(crate::specs::Work::decided_in))]
    fn work(t: &[u64; 768], s: Site, e: Seen) -> Work {
        effects::wrote(s.pc, field_a(s.word), e.fixed)
    }
}

// sput.
pub struct Sput;

impl Kind for Sput {
    ghost instruction = { sput_of };

    #[tactic(auto, unfolding(crate::specs::Work::decided_in))]
    fn work(t: &[u64; 768], s: Site, e: Seen) -> Work {
        effects::kept(s.pc, field_b(s.word), e.first.normal())
    }
}

// instance-of and check-cast.
pub struct Class;

impl Kind for Class {
    ghost instruction = { classed_of };

    #[tactic(auto, unfolding(crate::specs::Work::decided_in))]
    fn work(t: &[u64; 768], s: Site, e: Seen) -> Work {
        let did = effects::classed(t, s.word, e.first, e.class);
        match did {
            Effect::Write { to, value } => effects::wrote(s.pc, to, value.into()),
            Effect::Fail { fault } => effects::goes_to(s.pc as u32, How::Failed(fault)),
            Effect::RaiseNew { class } => effects::goes_to(s.pc as u32, How::Raises(class)),
            _ => effects::work_of(s.pc, e.cell, e.fixed, did),
        }
    }
}

// move, const, goto, unop, move-result, move-exception, nop.
pub struct Plain;

impl Kind for Plain {
    ghost instruction = { plain_of };

    #[tactic(auto, unfolding(crate::specs::Work::decided_in))]
    fn work(t: &[u64; 768], s: Site, e: Seen) -> Work {
        let did = effects::plain(s.word, e.first, e.result);
        effects::work_of(s.pc, e.cell, e.fixed, did)
    }
}
