// The answers of 01's table as types: where, how many, and why a text is refused.
#![tactic(auto)]

mod numbers; // numbers.rt: an answer as 01's three numbers
mod stepped; // stepped.rt: what a call of a stream tells, and the state after it

pub use stepped::{Stepped, Told};

// A place: an index into the text that was handed over, or the length of a text.
#[derive(Clone, Copy, PartialEq, Eq, Debug)]
pub struct Place(pub usize);

// A number of bytes in a buffer, written or needed.
#[derive(Clone, Copy, PartialEq, Eq, Debug)]
pub struct Count(pub usize);

// Why a call refuses, with its place where 01 gives one other than 0.
#[derive(Clone, Copy, PartialEq, Eq, Debug)]
pub enum Kind {
    Choice,
    TooLong(Place),
    NoRoom(Place),
    Foreign(Place),
    PadPlace(Place),
    Spare(Place),
    AfterPad(Place),
    Short(Place),
    BadState,
    Finished,
}

// What a call answers: accepted, with the place reached and the count; or refused, with the kind and the count.
// An enum of its own and no Result: 01 names this form, and both cases have a count.
#[derive(Clone, Copy, PartialEq, Eq, Debug)]
pub enum Outcome {
    Accepted(Place, Count),
    Refused(Kind, Count),
}
