// What a caller lends to the stepper, in one. And models of functions over a table and the lent slices, which all have one shape, with
// the laws of a loop of one (specs/, proofs/).
#![tactic(auto)]

use cells::{Frame, Object, Value};

// The lent slices.
#[derive(Drop)]
pub struct Lent<'a> {
    pub frames: &'a mut [Frame],
    pub objects: &'a mut [Object],
    pub statics: &'a mut [Value],
}
