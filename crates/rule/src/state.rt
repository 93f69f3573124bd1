// A state under a choice: the state before any text, whether reading can go on from a state, the pads that it wants, and what the text's end gives.
ghost use Rattle.std.specs.Prelude.{◌<◌, ◌≤◌, ◌≡◌, ◌%◌};
ghost use Rattle.alphabet.specs.Alphabet as Alphabet;
ghost use Rattle.reading.specs.Limit as Limit;
ghost use Rattle.reading.specs.Reader as Reader;
ghost use Rattle.rule.specs.Meaning.{state_of, end_of};
ghost use Rattle.rule.specs.State as Spec;

use crate::choice::{Choice, NOPAD, SPARE};
use crate::{Cause, Core};
use reading::limit;

// The state before any text.
pub fn fresh() -> Core
    ensures { result ≡ record { digits = 0; held = 0; pads = 0; taken = 0 } }
{
    Core::default()
}

impl Choice {
    // Whether the held bits are as many as the digits leave. The bound on the alphabet stays a clause: a type for it would be made for this call.
    #[tactic(auto, using(crate::proofs::Readiness::small_product, regroup::proofs::Shifts::one_shifted), unfolding(crate::specs::State::small))]
    fn small(self, core: Core) -> bool
        requires alphabet_bound { self.alphabet < 6 }
        requires digits_bound { core.digits ≤ Limit.limit }
        ensures { result ≡ Spec.small self.alphabet core.digits core.held }
    {
        let bits = alphabet::sizes::bits(self.alphabet) * core.digits % 8;
        (core.held as usize) < 1 << bits
    }

    // Whether the choice is allowed and the state is one that reading can go on from.
    #[tactic(auto, unfolding(crate::specs::State::ready, reading::specs::Options::allowed))]
    pub fn ready(self, core: Core) -> bool
        ensures { result ≡ Spec.ready self.alphabet self.options core }
    {
        self.allowed()
            && core.taken <= limit()
            && core.digits <= core.taken
            && core.pads <= core.taken
            && self.small(core)
    }

    // The digits of the last group.
    fn last_group(self, digits: usize) -> usize
        ensures { result ≡ digits % Alphabet.group self.alphabet }
    {
        match alphabet::sizes::group(self.alphabet) {
            0 => digits,
            group => digits % group,
        }
    }

    // The pads that the last group wants.
    pub fn wants(self, digits: usize) -> usize
        ensures { result ≡ Alphabet.tail self.alphabet (digits % Alphabet.group self.alphabet) }
    {
        alphabet::sizes::tail(self.alphabet, self.last_group(digits))
    }

    // What the end of the text gives in a state. Padding that is absent needs NOPAD and a digit count in the tail table, and zero spare bits or SPARE.
    #[tactic(auto, unfolding(reading::specs::Reader::ending, reading::specs::Reader::wants, crate::specs::Meaning::number))]
    pub fn ending(self, core: Core) -> Result<(), Cause>
        ensures { end_of result ≡ Reader.ending self.alphabet self.options (state_of core) }
    {
        let last = self.last_group(core.digits);
        let wants = self.wants(core.digits);
        match core.pads {
            0 if last == 0 => Ok(()),
            0 if wants == 0 || !self.chosen(NOPAD) => Err(Cause::Short),
            0 if core.held == 0 || self.chosen(SPARE) => Ok(()),
            0 => Err(Cause::Spare),
            pads if pads == wants => Ok(()),
            _ => Err(Cause::Short),
        }
    }
}
