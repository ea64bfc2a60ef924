// What an instruction does with an object of class `class`: fields, virtual calls, exceptions, tests of a class. That a value is
// an object is tested first.
ghost use Rattle.std.specs.Prelude.{◌≡◌};
ghost use Rattle.program.specs.Tables.{program_in};
ghost use Rattle.machine.specs.Decide.{not_object, get_field, put_field, call_of, virtual_call, throw, instance_of, check_cast};

use super::{CAST_CLASS, NULL_CLASS};
use machine::{Effect, Fault, Value};

// A number where an object is wanted: null raises, another number is a fault.
fn not_object(z: i32) -> Effect
    ensures value { result ≡ not_object z }
{
    if z == 0 {
        Effect::RaiseNew { class: NULL_CLASS }
    } else {
        Effect::Fail {
            fault: Fault::NumberAsObject,
        }
    }
}

pub fn get_field(t: &[u64; 768], class: usize, to: u8, field: u8, v: Value) -> Effect
    ensures value { result ≡ get_field (program_in t.now) class to field v }
{
    match v {
        Value::Number(z) => not_object(z),
        Value::Reference(object) if search::has_field(t, class, field as usize) => {
            Effect::Load { to, object, field }
        }
        Value::Reference(_) => Effect::Fail {
            fault: Fault::FieldNotHad,
        },
    }
}

pub fn put_field(t: &[u64; 768], class: usize, field: u8, stored: Value, v: Value) -> Effect
    ensures value { result ≡ put_field (program_in t.now) class field stored v }
{
    match v {
        Value::Number(z) => not_object(z),
        Value::Reference(object) if search::has_field(t, class, field as usize) => Effect::Store {
            object,
            field,
            value: stored,
        },
        Value::Reference(_) => Effect::Fail {
            fault: Fault::FieldNotHad,
        },
    }
}

fn call_of(callee: Option<usize>, first: u8) -> Effect
    ensures value { result ≡ call_of callee first }
{
    match callee {
        Some(method) => Effect::Call { method, first },
        None => Effect::Fail {
            fault: Fault::NoMethod,
        },
    }
}

pub fn virtual_call(
    t: &[u64; 768],
    class: usize,
    name: u8,
    count: u8,
    first: u8,
    v: Value,
) -> Effect
    ensures value { result ≡ virtual_call (program_in t.now) class name count first v }
{
    match v {
        Value::Number(z) => not_object(z),
        Value::Reference(_) => {
            call_of(
                search::virtual_callee(t, class, name as usize, count as usize),
                first,
            )
        }
    }
}

pub fn throw_value(t: &[u64; 768], class: usize, v: Value) -> Effect
    ensures value { result ≡ throw (program_in t.now) class v }
{
    match v {
        Value::Number(z) => not_object(z),
        Value::Reference(object) if search::below(t, class, 1) => Effect::Raise { object },
        Value::Reference(_) => Effect::Fail {
            fault: Fault::NotThrowable,
        },
    }
}

pub fn instance_of(t: &[u64; 768], class: usize, to: u8, top: u8, v: Value) -> Effect
    ensures value { result ≡ instance_of (program_in t.now) class to top v }
{
    match v {
        Value::Reference(_) => Effect::Write {
            to,
            value: Value::Number(i32::from(search::below(t, class, top as usize))),
        },
        Value::Number(0) => Effect::Write { to, value: v }, // null is an instance of nothing
        Value::Number(_) => Effect::Fail {
            fault: Fault::NumberAsObject,
        },
    }
}

pub fn check_cast(t: &[u64; 768], class: usize, to: u8, top: u8, v: Value) -> Effect
    ensures value { result ≡ check_cast (program_in t.now) class to top v }
{
    match v {
        Value::Reference(_) if search::below(t, class, top as usize) => Effect::Write {
            to,
            value: v,
        },
        Value::Reference(_) => Effect::RaiseNew { class: CAST_CLASS },
        Value::Number(0) => Effect::Write { to, value: v }, // null passes a cast
        Value::Number(_) => Effect::Fail {
            fault: Fault::NumberAsObject,
        },
    }
}
