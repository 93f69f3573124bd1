// What the whole writer answers to a source with so much room, with no buffer: for a caller that asks the position or the count by itself.
ghost use Rattle.std.specs.Prelude.{◌≡◌};
ghost use Rattle.answer.specs.Told.{told};
ghost use Rattle.spelling.specs.Whole.{write_of};

use crate::{NoSize, size_of};
use answer::{Count, Kind, Outcome, Place};

pub fn measure(alphabet: usize, src: &[u8], room: usize) -> Outcome
    ensures { told result ≡ (write_of alphabet src.now room).told }
{
    match size_of(alphabet, src.len()) {
        Err(NoSize::Unknown) => Outcome::Refused(Kind::Choice, Count(0)),
        Err(NoSize::TooLong) => Outcome::Refused(Kind::TooLong(Place(0)), Count(0)),
        Ok(need) if room < need => Outcome::Refused(Kind::NoRoom(Place(0)), Count(need)),
        Ok(need) => Outcome::Accepted(Place(need), Count(need)),
    }
}
