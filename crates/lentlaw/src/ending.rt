// The law of a finish that writes.
ghost use Rattle.std.specs.Prelude.{ℕ, List};

use crate::Two;

// A finish that takes the state by value. `asked` is what it requires, `may` what holds of the state, the buffer at entry, the result and the buffer
// at exit.
pub trait Write: Two {
    ghost asked: { Self.State → List ℕ → Type 0 };

    ghost may: { Self.State → List ℕ → Self.Both → List ℕ → Type 0 };

    fn write(was: Self::State, out: &mut [u8]) -> Self::Both
        requires { asked was out.old }
        ensures { may was out.old result out.new };
}

// A finish that is lent the state.
pub trait WriteIn: Two {
    ghost asked: { Self.State → List ℕ → Type 0 };

    ghost may: { Self.State → List ℕ → Self.Both → List ℕ → Type 0 };

    fn write_in(state: &mut Self::State, out: &mut [u8]) -> Self::Told
        requires { asked state.old out.old }
        ensures { may state.old out.old (Self.both state.new result) out.new };
}

pub fn write_lent<F: Write>(state: &mut F::State, out: &mut [u8]) -> F::Told
    requires { F.asked state.old out.old }
    ensures { F.may state.old out.old (F.both state.new result) out.new }
{
    let was = *state;
    let made = F::write(was, out);
    *state = F::state(made);
    F::told(made)
}

pub fn write_through<F: WriteIn>(was: F::State, out: &mut [u8]) -> F::Both
    requires { F.asked was out.old }
    ensures { F.may was out.old result out.new }
{
    let mut state = was;
    let told = F::write_in(&mut state, out);
    F::both(state, told)
}
