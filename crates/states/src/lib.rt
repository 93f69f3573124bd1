// "Answer 9 is given exactly when no sequence of calls from a start gives that state": the test of a state.
#![tactic(auto)]

ghost use Rattle.std.specs.Prelude.{◌≡◌};
ghost use Rattle.rule.specs.Meaning.{state_of, number};
ghost use Rattle.streaming.specs.Given as spec;
ghost use Rattle.states.specs.Status.{status_of};

use reading::limit;
use rule::choice::{Choice, NOPAD, SPARE};
use rule::{Cause, Core};

// Whether a stream goes on, has refused, or is finished. A refusal's place is not kept: it is the number of bytes
// taken. The writer's (in `writing`) has one cause alone.
#[derive(Clone, Copy, PartialEq, Eq)]
pub enum Status {
    Open,
    Shut(Cause),
    Done,
}

// A state under a choice, as calls of a stream have it.
#[derive(Clone, Copy)]
struct At {
    choice: Choice,
    core: Core,
}

impl At {
    // Digits and pads are among the bytes taken, and are all of them where none is dropped.
    #[tactic(auto, unfolding(streaming::specs::Given::counts_fit, reading::specs::Cleaning::dropped))]
    fn counts_fit(self) -> bool
        ensures { result ≡ spec.counts_fit self.choice.options (state_of self.core) }
    {
        if self.core.taken > limit() || self.core.digits > self.core.taken {
            return false;
        }
        let rest = self.core.taken - self.core.digits;
        self.core.pads <= rest
            && (self.core.pads == rest || self.choice.dropped(b'\r') || self.choice.dropped(b' '))
    }

    // Pads follow a tail, and held bits that are zero unless SPARE is set.
    #[tactic(auto, unfolding(streaming::specs::Given::pads_fit, reading::specs::Reader::wants))]
    fn pads_fit(self) -> bool
        ensures { result ≡ spec.pads_fit self.choice.alphabet self.choice.options (state_of self.core) }
    {
        self.core.pads <= self.choice.wants(self.core.digits)
            && (self.core.pads == 0 || self.core.held == 0 || self.choice.chosen(SPARE))
    }

    // Some text leads to the state.
    #[tactic(auto, using(crate::proofs::Tests::readable_by))]
    fn readable(self) -> bool
        ensures { result ≡ spec.readable self.choice.alphabet self.choice.options (state_of self.core) }
    {
        self.choice.ready(self.core) && self.counts_fit() && self.pads_fit()
    }

    // A first pad is refused with 6, and so is the end under NOPAD.
    #[tactic(auto, unfolding(streaming::specs::Given::spare_left, reading::specs::Reader::wants))]
    fn spare_left(self) -> bool
        ensures { result ≡ spec.spare_left self.choice.alphabet self.choice.options (state_of self.core) }
    {
        self.core.pads == 0
            && self.choice.wants(self.core.digits) != 0
            && self.core.held != 0
            && !self.choice.chosen(SPARE)
    }

    // A pad is refused with 5.
    #[tactic(auto, unfolding(streaming::specs::Given::refusable, reading::specs::Reader::wants))]
    fn pad_misplaced(self) -> bool
        ensures { result ≡ spec.refusable self.choice.alphabet self.choice.options (state_of self.core) 5 }
    {
        self.core.taken < limit()
            && alphabet::sizes::padded(self.choice.alphabet)
            && self.core.pads == 0
            && self.choice.wants(self.core.digits) == 0
    }

    // A first pad, or the end, is refused with 6.
    #[tactic(auto, unfolding(streaming::specs::Given::refusable))]
    fn spare_refused(self) -> bool
        ensures { result ≡ spec.refusable self.choice.alphabet self.choice.options (state_of self.core) 6 }
    {
        self.spare_left() && (self.core.taken < limit() || self.choice.chosen(NOPAD))
    }

    // Some byte, or the end, is refused for this cause after what was taken.
    #[tactic(auto, unfolding(streaming::specs::Given::refusable, rule::specs::Meaning::number))]
    fn refusable(self, cause: Cause) -> bool
        ensures { result ≡ spec.refusable self.choice.alphabet self.choice.options (state_of self.core) (number cause) }
    {
        match cause {
            Cause::TooLong => self.core.taken == limit(),
            Cause::Foreign => self.core.taken < limit(),
            Cause::PadPlace => self.pad_misplaced(),
            Cause::Spare => self.spare_refused(),
            Cause::AfterPad => self.core.taken < limit() && 0 < self.core.pads,
            Cause::Short => self.choice.ending(self.core) == Err(Cause::Short),
        }
    }

    // The status is one that calls leave in the state.
    #[tactic(auto, unfolding(streaming::specs::Given::status_fits, crate::specs::Status::status_of, rule::specs::Meaning::number))]
    fn status_fits(self, status: Status) -> bool
        ensures { result ≡ spec.status_fits self.choice.alphabet self.choice.options (state_of self.core) (status_of status) }
    {
        match status {
            Status::Open => true,
            Status::Shut(cause) => self.refusable(cause),
            Status::Done => self.choice.ending(self.core).is_ok(),
        }
    }
}

// Calls give the state.
#[tactic(auto, unfolding(streaming::specs::Given::given))]
pub fn given(choice: Choice, core: Core, status: Status) -> bool
    ensures { result ≡ spec.given (record { alphabet = choice.alphabet; options = choice.options; state = state_of core; status = status_of status }) }
{
    let at = At { choice, core };
    at.readable() && at.status_fits(status)
}
