// The writer: the written form of a source, whole and as a stream by value. Here stand the types.
#![tactic(auto)]

mod front; // front.rt: the numbers that a source gives, the run over a piece after it, and its ending
mod stream; // stream.rt: start, step and finish by value
mod whole; // whole.rt: the whole call

use spelling::Why;
pub use whole::write;

// Whether a writer goes on, refused a byte for the limit, or is finished. The reader's (in `states`) holds one of six causes; here there is one.
#[derive(Clone, Copy, PartialEq, Eq)]
pub enum Status {
    Open,
    TooLong,
    Done,
}

// A stream's state: the source bytes taken, and the bits of them that no digit has yet.
#[derive(Clone, Copy, PartialEq, Eq)]
pub struct Writer {
    pub alphabet: usize,
    pub taken: usize,
    pub held: u8,
    pub status: Status,
}

// What a run over a piece came to: the bits held (the engine's run holds a whole state), why it stopped, the bytes taken and the digits written.
#[derive(Clone, Copy)]
struct Ran {
    held: u8,
    why: Why,
    taken: usize,
    written: usize,
}
