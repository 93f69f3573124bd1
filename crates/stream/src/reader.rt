// The reader's stream: a state that goes in and comes back by value, with what each call tells.
ghost use Rattle.std.specs.Prelude.{◌≡◌};
ghost use Rattle.stream.specs.Stepped.{begun, stepped, written, finished};
ghost use Rattle.stream.specs.Packed.{refusal_of, as_step, as_end};

use answer::{Count, Kind, Outcome, Place, Stepped, Told};
use engine::piece::{Ran, Why};
use rule::choice::Choice;
use rule::state::fresh;
use rule::{Cause, Core};
use states::{Status, given};

#[derive(Clone, Copy, PartialEq, Eq)]
pub struct Reader {
    pub choice: Choice,
    pub core: Core,
    pub status: Status,
}

#[tactic(auto, using(crate::proofs::Returns::calls))]
impl Reader {
    pub fn start(choice: Choice) -> Result<Reader, Kind>
        ensures { result ≡ begun choice.alphabet choice.options }
    {
        if !choice.allowed() {
            return Err(Kind::Choice);
        }
        Ok(Reader {
            choice,
            core: fresh(),
            status: Status::Open,
        })
    }

    pub fn step(self, piece: &[u8], out: &mut [u8]) -> Stepped<Reader>
        ensures { (result ≡ stepped self piece.now out.old)
            × (out.new ≡ written self piece.now out.old) }
    {
        if let Some(kind) = self.refusal() {
            return Stepped::unmoved(self, kind);
        }
        self.after(engine::piece::run(self.choice, self.core, piece, out))
    }

    pub fn finish(self) -> Stepped<Reader>
        ensures { result ≡ finished self }
    {
        if let Some(kind) = self.refusal() {
            return Stepped::unmoved(self, kind);
        }
        self.at_end(self.choice.ending(self.core))
    }
}

#[tactic(auto, unfolding(crate::specs::Packed::refusal_of, crate::specs::Packed::refused_by, crate::specs::Packed::by_why, crate::specs::Packed::as_end))]
impl Reader {
    // What a state refuses to every call: 9, then 10, then an earlier refusal again.
    fn refusal(self) -> Option<Kind>
        ensures { result ≡ refusal_of self }
    {
        if !given(self.choice, self.core, self.status) {
            return Some(Kind::BadState); // before 10
        }
        match self.status {
            Status::Open => None,
            Status::Shut(cause) => Some(cause.at(Place(self.core.taken))),
            Status::Done => Some(Kind::Finished),
        }
    }

    // What a run gives as a step: the state anew, and the answer by why it stopped. The writer's is another match: its own reasons, its own state.
    fn after(self, ran: Ran) -> Stepped<Reader>
        ensures { result ≡ as_step self.choice ran }
    {
        let place = Place(ran.core.taken);
        let count = Count(ran.wrote);
        let open = Reader {
            core: ran.core,
            status: Status::Open,
            ..self
        };
        let (status, outcome) = match ran.why {
            Why::All => (Status::Open, Outcome::Accepted(place, count)),
            Why::Full => (Status::Open, Outcome::Refused(Kind::NoRoom(place), count)),
            Why::Refused(cause) => (
                Status::Shut(cause), // so that every later call refuses again
                Outcome::Refused(cause.at(place), count),
            ),
            Why::Unfit => return Stepped::unmoved(open, Kind::BadState),
        };
        Stepped {
            state: Reader { status, ..open },
            told: Told {
                outcome,
                taken: Place(ran.took),
            },
        }
    }

    // What the end of the text gives as a finish.
    fn at_end(self, end: Result<(), Cause>) -> Stepped<Reader>
        ensures { result ≡ as_end self.choice self.core end }
    {
        let place = Place(self.core.taken);
        match end {
            Ok(()) => Stepped {
                state: Reader {
                    status: Status::Done,
                    ..self
                },
                told: Told {
                    outcome: Outcome::Accepted(place, Count(0)),
                    taken: Place(0),
                },
            },
            Err(cause) => {
                let shut = Reader {
                    status: Status::Shut(cause),
                    ..self
                };
                Stepped::unmoved(shut, cause.at(place))
            }
        }
    }
}
