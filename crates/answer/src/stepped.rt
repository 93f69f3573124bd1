// A step of a stream whose state goes in and comes back by value: the state after a call, with what the call tells.
ghost use Rattle.std.specs.Prelude.{◌≡◌};

use crate::{Count, Kind, Outcome, Place};

// What a step or a finish answers, with the bytes taken in this call.
#[derive(Clone, Copy, PartialEq, Eq, Debug)]
pub struct Told {
    pub outcome: Outcome,
    pub taken: Place,
}

// The state after a step or a finish, and what the call tells.
#[derive(Clone, Copy, PartialEq, Eq, Debug)]
pub struct Stepped<S> {
    pub state: S,
    pub told: Told,
}

impl<S> Stepped<S> {
    // A refusal that takes and writes nothing and returns the state unchanged.
    pub fn unmoved(state: S, kind: Kind) -> Stepped<S>
        ensures { result ≡ record { state = state; told = record { outcome = Outcome.Refused kind (record { 0 = 0 }); taken = record { 0 = 0 } } } }
    {
        Stepped {
            state,
            told: Told {
                outcome: Outcome::Refused(kind, Count(0)),
                taken: Place(0),
            },
        }
    }
}
