// The law of a step, from a piece to a buffer.
ghost use Rattle.std.specs.Prelude.{ℕ, List};

use crate::Two;

// A step that takes the state by value. `asked` is what it requires, `may` what holds of the state, the piece, the buffer at entry, the result and
// the buffer at exit.
pub trait Step: Two {
    ghost asked: { Self.State → List ℕ → List ℕ → Type 0 };

    ghost may: { Self.State → List ℕ → List ℕ → Self.Both → List ℕ → Type 0 };

    fn step(was: Self::State, piece: &[u8], out: &mut [u8]) -> Self::Both
        requires { asked was piece.now out.old }
        ensures { may was piece.now out.old result out.new };
}

// A step that is lent the state.
pub trait StepIn: Two {
    ghost asked: { Self.State → List ℕ → List ℕ → Type 0 };

    ghost may: { Self.State → List ℕ → List ℕ → Self.Both → List ℕ → Type 0 };

    fn step_in(state: &mut Self::State, piece: &[u8], out: &mut [u8]) -> Self::Told
        requires { asked state.old piece.now out.old }
        ensures { may state.old piece.now out.old (Self.both state.new result) out.new };
}

pub fn step_lent<F: Step>(state: &mut F::State, piece: &[u8], out: &mut [u8]) -> F::Told
    requires { F.asked state.old piece.now out.old }
    ensures { F.may state.old piece.now out.old (F.both state.new result) out.new }
{
    let was = *state;
    let made = F::step(was, piece, out);
    *state = F::state(made);
    F::told(made)
}

pub fn step_through<F: StepIn>(was: F::State, piece: &[u8], out: &mut [u8]) -> F::Both
    requires { F.asked was piece.now out.old }
    ensures { F.may was piece.now out.old result out.new }
{
    let mut state = was;
    let told = F::step_in(&mut state, piece, out);
    F::both(state, told)
}
