// What a caller lends to the stepper: values, frames and objects as small structs. The slices of them are read and written by
// `store`.
#![tactic(auto)]

ghost use Rattle.std.specs.Prelude.{◌≡◌};
ghost use Rattle.cells.specs.Cells.{value_of, zero_value, zero_frame, zero_object};
ghost use Rattle.cells.specs.Reads.{reference_of, cell_in, object_place};

// The place that no slice has: what is read there is what is passed for it, and what is written there is nowhere.
// Stays: definition `object_place` (specs/Reads.antt) answers it, by the clause of `Value::place`.
pub const NOWHERE: usize = usize::MAX;

// A number, or an object: `object` is 0 for a number, else one more than the object's number, and then `number` is 0.
#[repr(C)]
#[derive(Clone, Copy)]
pub struct Value {
    pub object: u32,
    pub number: i32,
}

#[repr(C)]
#[derive(Clone, Copy)]
pub struct Frame {
    pub method: u32,
    pub address: u32,
    pub registers: [Value; 16],
    pub result: Value,
}

#[repr(C)]
#[derive(Clone, Copy)]
pub struct Object {
    pub class: u32,
    pub cells: [Value; 16],
}

impl Default for Value {
    ghost is_default = { λ c. c ≡ zero_value };

    fn default() -> Self {
        Value {
            object: 0,
            number: 0,
        }
    }
}

impl Default for Frame {
    ghost is_default = { λ f. f ≡ zero_frame };

    fn default() -> Self {
        Frame {
            method: 0,
            address: 0,
            registers: [Value::default(); 16],
            result: Value::default(),
        }
    }
}

impl Default for Object {
    ghost is_default = { λ o. o ≡ zero_object };

    fn default() -> Self {
        Object {
            class: 0,
            cells: [Value::default(); 16],
        }
    }
}

// The machine's value.
impl From<Value> for machine::Value {
    ghost from_gives = { λ c v. v ≡ value_of c };

    fn from(c: Value) -> Self {
        match c.object {
            0 => machine::Value::Number(c.number),
            o => machine::Value::Reference(o - 1),
        }
    }
}

// How a value of the machine is lent.
impl From<machine::Value> for Value {
    ghost from_gives = { λ v c. c ≡ cell_in v };

    fn from(v: machine::Value) -> Self {
        match v {
            machine::Value::Number(number) => Value { object: 0, number },
            machine::Value::Reference(o) => Value::reference(o),
        }
    }
}

impl Value {
    // A reference to object o; to none where no 32 bits hold it.
    pub fn reference(o: u32) -> Self
        ensures value { result ≡ reference_of o }
    {
        match o.checked_add(1) {
            Some(object) => Value { object, number: 0 },
            None => Value::default(),
        }
    }

    // The same value as it is lent: that of an object has no number.
    pub fn normal(self) -> Self
        ensures value { result ≡ cell_in (value_of self) }
    {
        if self.object == 0 {
            return self;
        }
        Value { number: 0, ..self }
    }

    // Which object a value is; for a number, one past every slice.
    #[tactic(auto, using(crate::proofs::Values::place_is))]
    pub fn place(self) -> usize
        ensures value { result ≡ object_place self }
    {
        (self.object as usize).wrapping_sub(1)
    }
}
