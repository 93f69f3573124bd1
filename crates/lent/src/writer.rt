// "A thin form that changes a lent state in place": the writer's step and finish, by the law of the lent form.
ghost use Rattle.writing.specs.Promised.{SteppedAs, FinishedAs};

use crate::lawful::By;
use answer::{Stepped, Told};
use writing::Writer;

pub fn step_in(state: &mut Writer, piece: &[u8], out: &mut [u8]) -> Told
    ensures { SteppedAs state.old piece.now out.old out.new (record { state = state.new; told = result }) }
{
    lentlaw::step_lent::<By<Writer>>(state, piece, out)
}

// A writer's finish writes.
pub fn finish_in(state: &mut Writer, out: &mut [u8]) -> Told
    ensures { FinishedAs state.old out.old out.new (record { state = state.new; told = result }) }
{
    lentlaw::write_lent::<By<Writer>>(state, out)
}

// The state by value, through the lent form: whoever calls it needs no proof by hand.
pub fn step_through(was: Writer, piece: &[u8], out: &mut [u8]) -> Stepped<Writer>
    ensures { SteppedAs was piece.now out.old out.new result }
{
    lentlaw::step_through::<By<Writer>>(was, piece, out)
}

pub fn finish_through(was: Writer, out: &mut [u8]) -> Stepped<Writer>
    ensures { FinishedAs was out.old out.new result }
{
    lentlaw::write_through::<By<Writer>>(was, out)
}
