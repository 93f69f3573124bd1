// The readers: the good bytes of a text at the front of a second buffer, or of the buffer that holds the text.
ghost use Rattle.std.specs.Prelude.{◌≡◌, true, ◌<◌};
ghost use Rattle.reading.specs.Options as Options;
ghost use Rattle.block.specs.Calls.{ReadAs, InPlaceAs};
ghost use Rattle.block.specs.Room.{most_of, needed_of};

use crate::judging::outcome;
use answer::{Count, Kind, Outcome, Place};
use rule::choice::Choice;

// The most good bytes that a text of so many bytes has. The bound on the alphabet stays a clause: a type for it would be made for this call.
#[tactic(auto, using(rule::proofs::Readiness::small_product), unfolding(crate::specs::Room::most_of))]
fn most(alphabet: usize, len: usize) -> usize
    requires { alphabet < 6 }
    ensures { result ≡ most_of alphabet len }
{
    alphabet::sizes::bits(alphabet) * len.min(engine::piece::limit()) / 8
}

// The room that the text needs: none where the room certainly suffices, else the good bytes, counted.
#[tactic(auto, using(reading::proofs::OptionLaws::allowed_alphabet, crate::proofs::RoomLaws::counted), unfolding(crate::specs::Room::needed_of))]
fn needed(choice: Choice, text: &[u8], room: usize) -> usize
    requires { Options.allowed choice.alphabet choice.options ≡ true }
    ensures { result ≡ needed_of choice.alphabet choice.options text.now room }
{
    if most(choice.alphabet, text.len()) <= room {
        return 0;
    }
    engine::piece::count(choice, text).wrote
}

#[tactic(auto, using(crate::proofs::Answers::promised_of, crate::proofs::RoomLaws::read_answers, crate::proofs::RoomLaws::read_gives))]
pub fn read(choice: Choice, text: &[u8], out: &mut [u8]) -> Outcome
    ensures { ReadAs choice.alphabet choice.options text.now out.old result out.new }
{
    if !choice.allowed() {
        return Outcome::Refused(Kind::Choice, Count(0));
    }
    let need = needed(choice, text, out.len());
    if out.len() < need {
        return Outcome::Refused(Kind::NoRoom(Place(0)), Count(need));
    }
    let ran = engine::piece::run(choice, rule::state::fresh(), text, out);
    outcome(choice, ran)
}

#[tactic(auto, using(crate::proofs::Answers::promised_of, crate::proofs::Answers::count_answers, crate::proofs::Answers::in_place_gives))]
pub fn read_in_place(choice: Choice, buf: &mut [u8]) -> Outcome
    ensures { InPlaceAs choice.alphabet choice.options buf.old result buf.new }
{
    let ran = engine::piece::in_place(choice, buf);
    outcome(choice, ran)
}
