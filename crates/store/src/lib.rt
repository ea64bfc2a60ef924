// The frames, objects and statics that a caller lends, read and written where they lie: an element, its field, a register, a cell.
// Every function takes any slice and any numbers; past the end a read is what is passed for it and a write does nothing.
#![tactic(auto)]

ghost use Rattle.std.specs.Prelude.{◌≡◌, map, get_or, set};
ghost use Rattle.store.specs.Store.{absent_frame, absent_object, method_of, address_of, result_of, registers_of, class_of, cells_of, with_method, with_address, with_result, with_register, with_class, with_cell, filled};

use cells::{Frame, Object, Value};

// ---- an element of a slice: a frame, an object, a static; a register of a frame, a cell of an object
pub fn element_at<T: Copy>(xs: &[T], i: usize, other: T) -> T
    ensures value { result ≡ get_or xs.now i other }
{
    xs.get(i).copied().unwrap_or(other)
}

// Stays: with `if let Some(y) = xs.get_mut(i)` what the slice then holds is not proved, here and where a field is put.
pub fn put_element<T: Copy>(xs: &mut [T], i: usize, x: T)
    ensures memory { xs.new ≡ set xs.old i x }
{
    if i < xs.len() {
        xs[i] = x;
    }
}

// The first n elements, or all where there are fewer, become one value.
#[tactic(auto, using(crate::proofs::Filled::filled_more), unfolding(crate::specs::Store::filled))]
pub fn fill<T: Copy>(xs: &mut [T], n: usize, x: T)
    ensures memory { xs.new ≡ filled n x xs.old }
{
    for i in 0..n {
        put_element(xs, i, x);
    }
}

// ---- frames
pub fn method_at(frames: &[Frame], i: usize, other: u32) -> u32
    ensures value { result ≡ get_or (map method_of frames.now) i other }
{
    frames.get(i).map_or(other, |f| f.method)
}

pub fn put_method(frames: &mut [Frame], i: usize, a: u32)
    ensures memory { frames.new ≡ set frames.old i (with_method (get_or frames.old i absent_frame) a) }
{
    if i < frames.len() {
        frames[i].method = a;
    }
}

pub fn address_at(frames: &[Frame], i: usize, other: u32) -> u32
    ensures value { result ≡ get_or (map address_of frames.now) i other }
{
    frames.get(i).map_or(other, |f| f.address)
}

pub fn put_address(frames: &mut [Frame], i: usize, a: u32)
    ensures memory { frames.new ≡ set frames.old i (with_address (get_or frames.old i absent_frame) a) }
{
    if i < frames.len() {
        frames[i].address = a;
    }
}

pub fn result_at(frames: &[Frame], i: usize, other: Value) -> Value
    ensures value { result ≡ get_or (map result_of frames.now) i other }
{
    frames.get(i).map_or(other, |f| f.result)
}

pub fn put_result(frames: &mut [Frame], i: usize, a: Value)
    ensures memory { frames.new ≡ set frames.old i (with_result (get_or frames.old i absent_frame) a) }
{
    if i < frames.len() {
        frames[i].result = a;
    }
}

pub fn register_at(frames: &[Frame], i: usize, r: usize, other: Value) -> Value
    ensures value { result ≡ get_or (registers_of (get_or frames.now i absent_frame)) r other }
{
    frames
        .get(i)
        .map_or(other, |f| element_at(&f.registers, r, other))
}

pub fn put_register(frames: &mut [Frame], i: usize, r: usize, v: Value)
    ensures memory { frames.new ≡ set frames.old i (with_register (get_or frames.old i absent_frame) r v) }
{
    if i < frames.len() {
        put_element(&mut frames[i].registers, r, v);
    }
}

// ---- objects
pub fn class_at(objects: &[Object], i: usize, other: u32) -> u32
    ensures value { result ≡ get_or (map class_of objects.now) i other }
{
    objects.get(i).map_or(other, |o| o.class)
}

pub fn put_class(objects: &mut [Object], i: usize, a: u32)
    ensures memory { objects.new ≡ set objects.old i (with_class (get_or objects.old i absent_object) a) }
{
    if i < objects.len() {
        objects[i].class = a;
    }
}

pub fn cell_at(objects: &[Object], i: usize, r: usize, other: Value) -> Value
    ensures value { result ≡ get_or (cells_of (get_or objects.now i absent_object)) r other }
{
    objects
        .get(i)
        .map_or(other, |o| element_at(&o.cells, r, other))
}

pub fn put_cell(objects: &mut [Object], i: usize, r: usize, v: Value)
    ensures memory { objects.new ≡ set objects.old i (with_cell (get_or objects.old i absent_object) r v) }
{
    if i < objects.len() {
        put_element(&mut objects[i].cells, r, v);
    }
}
