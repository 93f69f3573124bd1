// The judge: answer, position and number of good bytes of a text; it writes nothing.
ghost use Rattle.std.specs.Prelude.{◌≡◌};
ghost use Rattle.answer.specs.Told.{told};
ghost use Rattle.block.specs.Answered.{answered};
ghost use Rattle.block.specs.Calls.{JudgeAs};

use answer::{Count, Kind, Outcome, Place};
use engine::piece::{Ran, Why};
use rule::choice::Choice;

// What a run over a whole text answers.
#[tactic(auto, using(crate::proofs::Answers::cases), unfolding(crate::specs::Answered::answered_by))]
pub fn outcome(choice: Choice, ran: Ran) -> Outcome
    ensures { told result ≡ answered choice.alphabet choice.options ran }
{
    let place = Place(ran.core.taken);
    let count = Count(ran.wrote);
    match ran.why {
        Why::All => match choice.ending(ran.core) {
            Ok(()) => Outcome::Accepted(place, count),
            Err(cause) => Outcome::Refused(cause.at(place), count),
        },
        Why::Refused(cause) => Outcome::Refused(cause.at(place), count),
        Why::Full => Outcome::Refused(Kind::NoRoom(Place(0)), count),
        Why::Unfit => Outcome::Refused(Kind::Choice, Count(0)),
    }
}

#[tactic(auto, using(crate::proofs::Answers::promised_of, crate::proofs::Answers::count_answers))]
pub fn judge(choice: Choice, text: &[u8]) -> Outcome
    ensures { JudgeAs choice.alphabet choice.options text.now result }
{
    outcome(choice, engine::piece::count(choice, text))
}
