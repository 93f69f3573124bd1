// The tidier: the cleaned text of an accepted one. The text is read twice: it is counted, and its digits are written in the alphabet's own case.
#![tactic(auto)]

ghost use Rattle.std.specs.Prelude.{◌≡◌, true, ◌∷◌, [], ◌-◌, ◌<◌, ◌≤◌, length};
ghost use Rattle.std.specs.Option.{option_to_list};
ghost use Rattle.alphabet.specs.Alphabet as Alphabet;
ghost use Rattle.reading.specs.Cleaning as Cleaning;
ghost use Rattle.reading.specs.Buffer.{filled};
ghost use Rattle.tidier.specs.Spelling as Spelling;
ghost use Rattle.tidier.specs.Spelling.{spelt, Clearable, Spelled};
ghost use Rattle.tidier.specs.Tidy.{TidyAs};

use answer::{Count, Kind, Outcome, Place};
use block::judging::outcome;
use engine::rules::Rules;
use rule::choice::Choice;
use table::Symbol;

// The digit that a byte is written as, if any: a digit as it stands, or what a byte that is not dropped is turned to.
#[tactic(auto, using(crate::proofs::SpellingSteps::owns))]
fn own_digit(rules: &Rules, byte: u8) -> Option<u8>
    ensures { option_to_list result ≡ spelt rules.now.choice.alphabet rules.now.choice.options (byte ∷ []) }
{
    let choice = rules.choice;
    if let Symbol::Digit(_) = table::lookup(&rules.table.values, choice.alphabet, byte) {
        return Some(byte);
    }
    if choice.dropped(byte) {
        return None;
    }
    let turn = choice.turned(byte);
    match table::lookup(&rules.table.values, choice.alphabet, turn) {
        Symbol::Digit(_) => Some(turn),
        _ => None,
    }
}

// The digits of the text, in the alphabet's own case.
#[tactic(auto, using(crate::proofs::SpellingLaws::spelt_nothing, crate::proofs::SpellingSteps::spelling_ends))]
fn spell(rules: &Rules, text: &[u8], out: &mut [u8]) -> usize
    requires { length (spelt rules.now.choice.alphabet rules.now.choice.options text.now) ≤ length out.old }
    ensures value { result ≡ length (spelt rules.now.choice.alphabet rules.now.choice.options text.now) }
    ensures out_after { out.new ≡ filled (spelt rules.now.choice.alphabet rules.now.choice.options text.now) out.old }
{
    let mut n = 0; // the next place of `out`: it moves only where a digit is written
    for &byte in text {
        if let Some(digit) = own_digit(rules, byte) {
            out[n] = digit;
            n += 1;
        }
    }
    n
}

// A digit with its spare bits, which are the held ones, zero.
#[tactic(auto, using(crate::proofs::SpellingSteps::clears))]
fn cleared(rules: &Rules, held: u8, byte: u8) -> u8
    requires a_digit { Alphabet.is_digit rules.now.choice.alphabet byte ≡ true }
    requires low { held ≤ Alphabet.value rules.now.choice.alphabet byte }
    ensures { result ≡ Alphabet.digit rules.now.choice.alphabet (Alphabet.value rules.now.choice.alphabet byte - held) }
{
    let alphabet = rules.choice.alphabet;
    let Symbol::Digit(v) = table::lookup(&rules.table.values, alphabet, byte) else {
        unreachable!()
    };
    table::digit(&table::digits().bytes, alphabet, v - held)
}

// The last of the digits with its spare bits zero.
#[tactic(auto, unfolding(crate::specs::Spelling::last_clear))]
fn clear_last(rules: &Rules, held: u8, digits: &mut [u8])
    requires { 0 < held → Clearable rules.now.choice.alphabet held digits.old }
    ensures { digits.new ≡ Spelling.last_clear rules.now.choice.alphabet held digits.old }
{
    if held == 0 {
        return;
    }
    if let Some(last) = digits.last_mut() {
        *last = cleared(rules, held, *last);
    }
}

// The cleaned text of a text whose digits, and the held bits of the last, a count gave: the digits, and = to the end.
#[tactic(auto, using(crate::proofs::CleanWritten::clean_length, crate::proofs::CleanWritten::written_clean))]
fn write_clean(choice: Choice, held: u8, text: &[u8], out: &mut [u8])
    requires spelled { Spelled choice.alphabet choice.options text.now held }
    requires out_len { length out.old ≡ length (Cleaning.clean choice.alphabet choice.options text.now) }
    ensures { out.new ≡ Cleaning.clean choice.alphabet choice.options text.now }
{
    let rules = Rules {
        table: table::table(),
        choice,
    };
    let n = spell(&rules, text, out);
    clear_last(&rules, held, &mut out[..n]);
    out[n..].fill(b'=');
}

pub fn tidy(choice: Choice, text: &[u8], out: &mut [u8]) -> Outcome
    ensures { TidyAs choice.alphabet choice.options text.now out.old result out.new }
{
    let ran = engine::piece::count(choice, text);
    let core = ran.core;
    match outcome(choice, ran) {
        Outcome::Refused(kind, _) => Outcome::Refused(kind, Count(0)),
        Outcome::Accepted(place, _) => {
            let need = core
                .digits
                .next_multiple_of(alphabet::sizes::group(choice.alphabet));
            if out.len() < need {
                return Outcome::Refused(Kind::NoRoom(Place(0)), Count(need));
            }
            write_clean(choice, core.held, text, &mut out[..need]);
            Outcome::Accepted(place, Count(need))
        }
    }
}
