// A stream that the law is used on: it tells and writes each byte one step late.
ghost use Rattle.std.specs.Prelude.{◌≡◌, ◌<◌, length, slice_set, refl};
ghost use Rattle.lentlaw.specs.Delayed.{Stepped, Finished, Written};

use crate::{
    Finish, FinishIn, Step, StepIn, Two, Write, WriteIn, finish_lent, finish_through, step_lent,
    step_through, write_lent, write_through,
};

#[derive(Clone, Copy)]
struct Delay {
    byte: u8,
}

#[derive(Clone, Copy)]
struct Made {
    state: Delay,
    told: u8,
}

struct Late;

impl Two for Late {
    type State = Delay;

    type Told = u8;

    type Both = Made;

    ghost state = { λ x. x.state };

    ghost told = { λ x. x.told };

    ghost both = { λ s t. record { state = s; told = t } };

    ghost again = { λ x. refl };

    fn state(x: Made) -> Delay {
        x.state
    }

    fn told(x: Made) -> u8 {
        x.told
    }

    fn both(s: Delay, t: u8) -> Made {
        Made { state: s, told: t }
    }
}

// ---- by value

impl Step for Late {
    ghost asked = { λ s piece out. (0 < length piece) × (0 < length out) };

    ghost may = { Stepped };

    fn step(was: Delay, piece: &[u8], out: &mut [u8]) -> Made {
        out[0] = was.byte;
        Made {
            state: Delay { byte: piece[0] },
            told: was.byte,
        }
    }
}

impl Finish for Late {
    ghost asked = { λ s. Unit {0} };

    ghost may = { Finished };

    fn finish(was: Delay) -> Made {
        Made {
            state: Delay { byte: 0 },
            told: was.byte,
        }
    }
}

impl Write for Late {
    ghost asked = { λ s out. 0 < length out };

    ghost may = { Written };

    fn write(was: Delay, out: &mut [u8]) -> Made {
        out[0] = was.byte;
        Made {
            state: Delay { byte: 0 },
            told: was.byte,
        }
    }
}

// ---- lent, by the law

impl StepIn for Late {
    ghost asked = { λ s piece out. (0 < length piece) × (0 < length out) };

    ghost may = { Stepped };

    fn step_in(state: &mut Delay, piece: &[u8], out: &mut [u8]) -> u8 {
        step_lent::<Late>(state, piece, out)
    }
}

impl FinishIn for Late {
    ghost asked = { λ s. Unit {0} };

    ghost may = { Finished };

    fn finish_in(state: &mut Delay) -> u8 {
        finish_lent::<Late>(state)
    }
}

impl WriteIn for Late {
    ghost asked = { λ s out. 0 < length out };

    ghost may = { Written };

    fn write_in(state: &mut Delay, out: &mut [u8]) -> u8 {
        write_lent::<Late>(state, out)
    }
}

// Of two bytes the first is told by the second step, the second by the finish, and the first stands in the buffer.
fn two_late(first: u8, second: u8, out: &mut [u8]) -> (u8, u8)
    requires { 0 < length out.old }
    ensures first { result.0 ≡ first }
    ensures second { result.1 ≡ second }
    ensures out { out.new ≡ slice_set out.old 0 first }
{
    let mut state = Delay { byte: 0 };
    step_lent::<Late>(&mut state, &[first], out);
    let one = step_lent::<Late>(&mut state, &[second], out);
    let two = finish_lent::<Late>(&mut state);
    (one, two)
}

// The same of a state that is passed on by value; a finish that writes leaves the second.
fn two_through(first: u8, second: u8, out: &mut [u8]) -> (u8, u8)
    requires { 0 < length out.old }
    ensures first { result.0 ≡ first }
    ensures second { result.1 ≡ second }
    ensures out { out.new ≡ slice_set out.old 0 second }
{
    let made = step_through::<Late>(Delay { byte: 0 }, &[first], out);
    let made = step_through::<Late>(made.state, &[second], out);
    write_through::<Late>(made.state, out);
    (made.told, finish_through::<Late>(made.state).told)
}
