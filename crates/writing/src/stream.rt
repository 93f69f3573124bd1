// The stream by value: a state goes in and comes back, with the answer, the position, the bytes taken and the bytes written.
ghost use Rattle.std.specs.Prelude.{◌≡◌, MatchResult};
ghost use Rattle.writing.specs.Stream as stream;
ghost use Rattle.writing.specs.Promised.{opened, OpenAs, ShutAs, MovedAs, SteppedAs, ClosedAs, FinishedAs};

use super::front::Front;
use super::{Status, Writer};
use answer::{Count, Kind, Outcome, Place, Stepped, Told};
use spelling::Why;

#[tactic(auto, using(crate::proofs::Cited::cases), unfolding(crate::specs::Stream::start_of, crate::specs::Stream::fresh))]
impl Writer {
    pub fn start(alphabet: usize) -> Result<Writer, Kind>
        ensures { result ≡ stream.start_of alphabet }
    {
        if 5 < alphabet {
            return Err(Kind::Choice);
        }
        Ok(Writer {
            alphabet,
            taken: 0,
            held: 0,
            status: Status::Open,
        })
    }

    pub fn step(self, piece: &[u8], out: &mut [u8]) -> Stepped<Writer>
        ensures { SteppedAs self piece.now out.old out.new result }
    {
        match self.front() {
            Ok(front) => front.step(piece, out),
            Err(kind) => Stepped::unmoved(self, kind),
        }
    }

    pub fn finish(self, out: &mut [u8]) -> Stepped<Writer>
        ensures { FinishedAs self out.old out.new result }
    {
        match self.front() {
            Ok(front) => front.finish(out),
            Err(kind) => Stepped::unmoved(self, kind),
        }
    }

    // The numbers of an open writer; of any other the refusal that each call gives: 9, then 10, then the earlier one.
    fn front(self) -> Result<Front, Kind>
        ensures { MatchResult result (λ f. OpenAs self f) (λ k. ShutAs self k) }
    {
        if !self.sound() {
            return Err(Kind::BadState);
        }
        match self.status {
            Status::Open => Ok(Front {
                alphabet: self.alphabet,
                taken: self.taken,
                held: self.held,
            }),
            Status::TooLong => Err(Kind::TooLong(Place(self.taken))),
            Status::Done => Err(Kind::Finished),
        }
    }

    // Whether calls give the state; a refusal for the limit stands only after the longest source.
    fn sound(self) -> bool
        ensures { result ≡ stream.sound self }
    {
        spelling::sound(self.alphabet, self.taken, self.held)
            && (self.status != Status::TooLong || self.taken == spelling::longest(self.alphabet))
    }
}

#[tactic(auto, using(crate::proofs::Cited::numbers))]
impl Front {
    fn opened(self) -> Writer
        ensures { result ≡ opened self.alphabet self.taken self.held }
    {
        Writer {
            alphabet: self.alphabet,
            taken: self.taken,
            held: self.held,
            status: Status::Open,
        }
    }

    // A step of an open writer: the state after the run, and the answer by why it stopped, with the source bytes taken in this call. The reader's is
    // another match: its own reasons, its own state.
    fn step(self, piece: &[u8], out: &mut [u8]) -> Stepped<Writer>
        ensures { MovedAs self.alphabet self.taken self.held piece.now out.old out.new result }
    {
        let ran = self.run(piece, out);
        let place = Place(self.taken + ran.taken);
        let count = Count(ran.written);
        let (status, outcome) = match ran.why {
            Why::All => (Status::Open, Outcome::Accepted(place, count)),
            Why::Room => (Status::Open, Outcome::Refused(Kind::NoRoom(place), count)),
            Why::Limit => (
                Status::TooLong,
                Outcome::Refused(Kind::TooLong(place), count),
            ),
        };
        Stepped {
            state: Writer {
                alphabet: self.alphabet,
                taken: place.0,
                held: ran.held,
                status,
            },
            told: Told {
                outcome,
                taken: Place(ran.taken),
            },
        }
    }

    // The finish of an open writer: the last digit and the pads if they all fit.
    fn finish(self, out: &mut [u8]) -> Stepped<Writer>
        ensures { ClosedAs self.alphabet self.taken self.held out.old out.new result }
    {
        let place = Place(self.taken);
        let need = self.ending_len();
        if out.len() < need {
            return Stepped::unmoved(self.opened(), Kind::NoRoom(place));
        }
        self.put_ending(&table::digits(), 0, out);
        Stepped {
            state: Writer {
                status: Status::Done,
                ..self.opened()
            },
            told: Told {
                outcome: Outcome::Accepted(place, Count(need)),
                taken: Place(0),
            },
        }
    }
}
