// What a step's answer means for the program's loop: whether it goes on, and from where. One loop drives any stream.
#![tactic(auto, unfolding(crate::specs::Turns::goes_on, crate::specs::Turns::turn_on))]

ghost use Rattle.std.specs.Prelude.{◌≡◌};
ghost use Rattle.answer.specs.Told.{told};
ghost use Rattle.turns.specs.Turns.{goes_on, turn_on};

use answer::{Outcome, Stepped};
use std::ops::ControlFlow;

// A stream, the bytes that it has given, and where the part of the buffer begins that it has not taken yet.
#[derive(Clone, Copy, PartialEq, Eq)]
pub struct Going<S> {
    pub state: S,
    pub good: usize,
    pub at: usize,
}

// The loop goes on, or the answer is settled, with the bytes given counted.
pub type Turn<S> = ControlFlow<(Outcome, usize), Going<S>>;

// Whether a step's answer lets the loop go on: the piece taken, or no room for its next byte.
pub fn goes_on(outcome: Outcome) -> bool
    ensures { result ≡ goes_on (told outcome).answer }
{
    matches!(outcome.answer(), 0 | 3)
}

// After a step that gave n bytes: what was not taken is offered again, or the answer is settled.
pub fn after<S: Copy>(stepped: Stepped<S>, n: usize, good: usize, at: usize, end: usize) -> Turn<S>
    ensures { result ≡ turn_on stepped n good at end }
{
    let Stepped { state, told } = stepped;
    let good = good.saturating_add(n);
    if !goes_on(told.outcome) {
        return ControlFlow::Break((told.outcome, good));
    }
    let at = at.saturating_add(told.taken.0).min(end);
    ControlFlow::Continue(Going { state, good, at })
}
