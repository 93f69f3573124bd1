// Both streams keep the law of the lent form: what holds of a step or a finish by value holds of the one in place, and the other way. The type here
// only names the functions that the law is of.
ghost use Rattle.std.specs.Prelude.{◌≡◌, refl};
ghost use Rattle.stream.specs.Stepped.{stepped, written, finished};
ghost use Rattle.writing.specs.Promised.{SteppedAs, FinishedAs};

use crate::{reader, writer};
use answer::{Stepped, Told};
use lentlaw::{Finish, FinishIn, Step, StepIn, Two, Write, WriteIn};
use std::marker::PhantomData;
use stream::reader::Reader;
use writing::Writer;

// A stream whose state is an S: what its calls tell, and the struct of the two, are the same for every state.
pub struct By<S>(PhantomData<S>);

impl<S: Copy> Two for By<S> {
    type State = S;

    type Told = Told;

    type Both = Stepped<S>;

    ghost state = { λ x. x.state };

    ghost told = { λ x. x.told };

    ghost both = { λ s t. record { state = s; told = t } };

    ghost again = { λ x. refl };

    fn state(x: Stepped<S>) -> S {
        x.state
    }

    fn told(x: Stepped<S>) -> Told {
        x.told
    }

    fn both(s: S, t: Told) -> Stepped<S> {
        Stepped { state: s, told: t }
    }
}

// A step, and a step that is lent the state, are said for each stream: its relation is its own, which the pages name.

// ---- the reader

impl Step for By<Reader> {
    ghost asked = { λ s piece out. Unit {0} };

    ghost may = { λ s piece out x out'. (x ≡ stepped s piece out) × (out' ≡ written s piece out) };

    fn step(was: Reader, piece: &[u8], out: &mut [u8]) -> Stepped<Reader> {
        was.step(piece, out)
    }
}

impl StepIn for By<Reader> {
    ghost asked = { λ s piece out. Unit {0} };

    ghost may = { λ s piece out x out'. (x ≡ stepped s piece out) × (out' ≡ written s piece out) };

    fn step_in(state: &mut Reader, piece: &[u8], out: &mut [u8]) -> Told {
        reader::step_in(state, piece, out)
    }
}

impl Finish for By<Reader> {
    ghost asked = { λ s. Unit {0} };

    ghost may = { λ s x. x ≡ finished s };

    fn finish(was: Reader) -> Stepped<Reader> {
        was.finish()
    }
}

impl FinishIn for By<Reader> {
    ghost asked = { λ s. Unit {0} };

    ghost may = { λ s x. x ≡ finished s };

    fn finish_in(state: &mut Reader) -> Told {
        reader::finish_in(state)
    }
}

// ---- the writer

impl Step for By<Writer> {
    ghost asked = { λ s piece out. Unit {0} };

    ghost may = { λ s piece out x out'. SteppedAs s piece out out' x };

    fn step(was: Writer, piece: &[u8], out: &mut [u8]) -> Stepped<Writer> {
        was.step(piece, out)
    }
}

impl StepIn for By<Writer> {
    ghost asked = { λ s piece out. Unit {0} };

    ghost may = { λ s piece out x out'. SteppedAs s piece out out' x };

    fn step_in(state: &mut Writer, piece: &[u8], out: &mut [u8]) -> Told {
        writer::step_in(state, piece, out)
    }
}

impl Write for By<Writer> {
    ghost asked = { λ s out. Unit {0} };

    ghost may = { λ s out x out'. FinishedAs s out out' x };

    fn write(was: Writer, out: &mut [u8]) -> Stepped<Writer> {
        was.finish(out)
    }
}

impl WriteIn for By<Writer> {
    ghost asked = { λ s out. Unit {0} };

    ghost may = { λ s out x out'. FinishedAs s out out' x };

    fn write_in(state: &mut Writer, out: &mut [u8]) -> Told {
        writer::finish_in(state, out)
    }
}
