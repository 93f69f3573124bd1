// The law of a finish that writes nothing.
use crate::Two;

// A finish that takes the state by value.
pub trait Finish: Two {
    ghost asked: { Self.State → Type 0 };

    ghost may: { Self.State → Self.Both → Type 0 };

    fn finish(was: Self::State) -> Self::Both
        requires { asked was }
        ensures { may was result };
}

// A finish that is lent the state.
pub trait FinishIn: Two {
    ghost asked: { Self.State → Type 0 };

    ghost may: { Self.State → Self.Both → Type 0 };

    fn finish_in(state: &mut Self::State) -> Self::Told
        requires { asked state.old }
        ensures { may state.old (Self.both state.new result) };
}

pub fn finish_lent<F: Finish>(state: &mut F::State) -> F::Told
    requires { F.asked state.old }
    ensures { F.may state.old (F.both state.new result) }
{
    let was = *state;
    let made = F::finish(was);
    *state = F::state(made);
    F::told(made)
}

pub fn finish_through<F: FinishIn>(was: F::State) -> F::Both
    requires { F.asked was }
    ensures { F.may was result }
{
    let mut state = was;
    let told = F::finish_in(&mut state);
    F::both(state, told)
}
