//! One side of a walk: the places of a trace, by their numbers. 0 is the entry, the marks follow in
//! their order, and every later number is the exit. None of these functions takes memory.
ghost use Rattle.std.specs.Prelude.{◌≡◌};
ghost use Rattle.walks.specs.Side.{leaves_mark, place_at, taken, values_at};

use c_ast::{Place, Trace};
use std::slice;

/// The place with this number.
#[tactic(auto, using(crate::proofs::Places::place_behind, crate::proofs::Places::place_at_entry))]
pub fn place_at(trace: &Trace, number: usize) -> Place
    ensures { result ≡ place_at trace.now number }
{
    if number == 0 {
        return Place::Entry;
    }
    match trace.events.get(number - 1) {
        Some(event) => Place::Mark(event.mark),
        None => Place::Exit,
    }
}

/// The values at the place with this number: the input at the entry, and the result at the exit.
#[tactic(auto, using(crate::proofs::Places::values_behind, crate::proofs::Places::values_at_entry))]
pub fn values_at<'a>(input: &'a [i128], trace: &'a Trace, number: usize) -> &'a [i128]
    ensures { result.now ≡ values_at input.now trace.now number }
{
    if number == 0 {
        return input;
    }
    match trace.events.get(number - 1) {
        Some(event) => event.values.as_slice(),
        None => slice::from_ref(&trace.result),
    }
}

/// Whether a segment between these places begins at a mark and ends elsewhere.
fn leaves_mark(from: Place, to: Place) -> bool
    ensures { result ≡ leaves_mark from to }
{
    match from {
        Place::Mark(_) => to != from,
        Place::Entry | Place::Exit => false,
    }
}

/// The number of the place at which the side stops, of at most so many segments from a place.
pub fn take(trace: &Trace, most: u32, from: usize) -> usize
    ensures { result ≡ taken trace.now most from }
{
    let events = trace.events.as_slice();
    let mut at = from;
    let mut left = most;
    while left > 0 && at <= events.len() {
        let next = at + 1;
        if leaves_mark(place_at(trace, at), place_at(trace, next)) {
            return next;
        }
        at = next;
        left -= 1;
    }
    at
}
