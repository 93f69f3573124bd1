// An answer as numbers: 01's number, position and count of each case, for callers that know numbers alone.
#![tactic(auto, unfolding(crate::specs::Told::number, crate::specs::Told::position, crate::specs::Told::told))]

ghost use Rattle.std.specs.Prelude.{◌≡◌};
ghost use Rattle.answer.specs.Told as spec;
ghost use Rattle.answer.specs.Told.{told};

use crate::{Kind, Outcome};

impl Kind {
    // The number of a refusal.
    fn number(self) -> u32
        ensures { result ≡ spec.number self }
    {
        match self {
            Kind::Choice => 1,
            Kind::TooLong(_) => 2,
            Kind::NoRoom(_) => 3,
            Kind::Foreign(_) => 4,
            Kind::PadPlace(_) => 5,
            Kind::Spare(_) => 6,
            Kind::AfterPad(_) => 7,
            Kind::Short(_) => 8,
            Kind::BadState => 9,
            Kind::Finished => 10,
        }
    }

    // The position of a refusal.
    fn place(self) -> usize
        ensures { result ≡ spec.position self }
    {
        match self {
            Kind::Choice | Kind::BadState | Kind::Finished => 0,
            Kind::TooLong(p)
            | Kind::NoRoom(p)
            | Kind::Foreign(p)
            | Kind::PadPlace(p)
            | Kind::Spare(p)
            | Kind::AfterPad(p)
            | Kind::Short(p) => p.0,
        }
    }
}

impl Outcome {
    pub fn answer(self) -> u32
        ensures { result ≡ (told self).answer }
    {
        match self {
            Outcome::Accepted(_, _) => 0,
            Outcome::Refused(kind, _) => kind.number(),
        }
    }

    pub fn position(self) -> usize
        ensures { result ≡ (told self).position }
    {
        match self {
            Outcome::Accepted(p, _) => p.0,
            Outcome::Refused(kind, _) => kind.place(),
        }
    }

    pub fn count(self) -> usize
        ensures { result ≡ (told self).count }
    {
        match self {
            Outcome::Accepted(_, n) | Outcome::Refused(_, n) => n.0,
        }
    }
}
