// What one byte does in a state, in the order of 01's (b) to (f).
ghost use Rattle.std.specs.Prelude.{◌≡◌, ◌<◌, ◌^◌};
ghost use Rattle.alphabet.specs.Alphabet as Alphabet;
ghost use Rattle.reading.specs.Reader as Reader;
ghost use Rattle.rule.specs.Meaning.{state_of};
ghost use Rattle.engine.specs.Meaning.{step_of, Fit};

use crate::rules::Rules;
use rule::choice::SPARE;
use rule::{Cause, Core};
use table::Symbol;

// A byte that is taken: the state then, and the byte of source that it completes, if it does.
#[derive(Clone, Copy, PartialEq, Eq)]
pub struct Taken {
    pub core: Core,
    pub byte: Option<u8>,
}

impl Rules {
    // A digit of the value v: after padding it is refused; else its bits join the held ones, and perhaps complete a byte.
    #[tactic(auto, using(crate::proofs::Steps::digit_sums), unfolding(reading::specs::Reader::on_digit, rule::specs::Meaning::number))]
    fn on_digit(&self, k: Core, v: u8) -> Result<Taken, Cause>
        requires fit { Fit self.now.choice.alphabet k }
        requires v_bound { v < 2 ^ Alphabet.bits self.now.choice.alphabet }
        ensures { step_of result ≡ Reader.on_digit self.now.choice.alphabet (state_of k) v }
    {
        if 0 < k.pads {
            return Err(Cause::AfterPad);
        }
        let bits = alphabet::sizes::bits(self.choice.alphabet);
        let fed = regroup::feed(bits, bits * k.digits % 8, k.held, v);
        Ok(Taken {
            core: Core {
                digits: k.digits + 1,
                held: fed.held,
                pads: 0,
                taken: k.taken + 1,
            },
            byte: fed.byte,
        })
    }

    // A pad: complete padding and a digit count outside the table refuse it, and so do spare bits without SPARE.
    #[tactic(auto, using(crate::proofs::Steps::sums), unfolding(reading::specs::Reader::on_pad, reading::specs::Reader::wants, rule::specs::Meaning::number))]
    fn on_pad(&self, k: Core) -> Result<Taken, Cause>
        requires { Fit self.now.choice.alphabet k }
        ensures { step_of result ≡ Reader.on_pad self.now.choice.alphabet self.now.choice.options (state_of k) }
    {
        let wants = self.choice.wants(k.digits);
        if 0 < k.pads {
            if k.pads == wants {
                return Err(Cause::AfterPad);
            }
        } else {
            if wants == 0 {
                return Err(Cause::PadPlace);
            }
            if k.held != 0 && !self.choice.chosen(SPARE) {
                return Err(Cause::Spare);
            }
        }
        Ok(Taken {
            core: Core {
                pads: k.pads + 1,
                taken: k.taken + 1,
                ..k
            },
            byte: None,
        })
    }

    // What any byte does. It is asked of bytes that are no digit as they stand, since `digits.rt` takes those that are.
    #[tactic(auto, using(crate::proofs::Steps::sums, reading::proofs::StepCases::step_dropped), unfolding(reading::specs::Reader::passes))]
    pub(crate) fn rare(&self, k: Core, byte: u8) -> Result<Taken, Cause>
        requires { Fit self.now.choice.alphabet k }
        ensures { step_of result ≡ Reader.step self.now.choice.alphabet self.now.choice.options (state_of k) byte }
    {
        let choice = self.choice;
        if choice.dropped(byte) {
            return Ok(Taken {
                core: Core {
                    taken: k.taken + 1,
                    ..k
                },
                byte: None,
            });
        }
        match table::lookup(&self.table.values, choice.alphabet, choice.turned(byte)) {
            Symbol::Digit(v) => self.on_digit(k, v),
            Symbol::Pad => self.on_pad(k),
            Symbol::Neither => Err(Cause::Foreign),
        }
    }
}
