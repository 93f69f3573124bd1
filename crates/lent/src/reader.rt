// "A thin form that changes a lent state in place": the reader's step and finish, by the law of the lent form.
ghost use Rattle.std.specs.Prelude.{◌≡◌};
ghost use Rattle.stream.specs.Stepped.{stepped, written, finished};

use crate::lawful::By;
use answer::{Stepped, Told};
use stream::reader::Reader;

pub fn step_in(state: &mut Reader, piece: &[u8], out: &mut [u8]) -> Told
    ensures { (record { state = state.new; told = result } ≡ stepped state.old piece.now out.old)
        × (out.new ≡ written state.old piece.now out.old) }
{
    lentlaw::step_lent::<By<Reader>>(state, piece, out)
}

pub fn finish_in(state: &mut Reader) -> Told
    ensures { record { state = state.new; told = result } ≡ finished state.old }
{
    lentlaw::finish_lent::<By<Reader>>(state)
}

// The state by value, through the lent form: whoever calls it needs no proof by hand.
pub fn step_through(was: Reader, piece: &[u8], out: &mut [u8]) -> Stepped<Reader>
    ensures { (result ≡ stepped was piece.now out.old)
        × (out.new ≡ written was piece.now out.old) }
{
    lentlaw::step_through::<By<Reader>>(was, piece, out)
}

pub fn finish_through(was: Reader) -> Stepped<Reader>
    ensures { result ≡ finished was }
{
    lentlaw::finish_through::<By<Reader>>(was)
}
