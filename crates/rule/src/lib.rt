// The reader's rule but for what a byte does to a state: the test of a choice, what an option drops and turns, the pads that are wanted, and what the
// end of the text gives.
#![tactic(auto)]

pub mod choice; // choice.rt: which alphabets and options are answered 1, and what an option drops and turns
pub mod state; // state.rt: the state before any text, the test of a state, the pads wanted, and what the end gives

ghost use Rattle.std.specs.Prelude.{◌≡◌};
ghost use Rattle.rule.specs.Meaning.{kind_by};

use answer::{Kind, Place};

// Digits and pads so far, the bits that no byte has yet, and the bytes of text taken.
#[derive(Clone, Copy, PartialEq, Eq, Default)]
pub struct Core {
    pub digits: usize,
    pub held: u8,
    pub pads: usize,
    pub taken: usize,
}

// Why a byte, or the end of the text, is refused.
#[derive(Clone, Copy, PartialEq, Eq)]
pub enum Cause {
    TooLong,
    Foreign,
    PadPlace,
    Spare,
    AfterPad,
    Short,
}

impl Cause {
    // The refusal of a byte or an end, at its place.
    #[tactic(auto, unfolding(crate::specs::Meaning::kind_by))]
    pub fn at(self, place: Place) -> Kind
        ensures { result ≡ kind_by self place }
    {
        match self {
            Cause::TooLong => Kind::TooLong(place),
            Cause::Foreign => Kind::Foreign(place),
            Cause::PadPlace => Kind::PadPlace(place),
            Cause::Spare => Kind::Spare(place),
            Cause::AfterPad => Kind::AfterPad(place),
            Cause::Short => Kind::Short(place),
        }
    }
}
