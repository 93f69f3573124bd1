// What the law of the lent form goes by, for any state.
ghost use Rattle.std.specs.Prelude.{◌≡◌};

// A state, what is told of it, and the struct of the two that a function returns which takes the state by value. The type that has them only names them.
pub trait Two {
    type State: Copy;

    type Told;

    type Both: Copy;

    ghost state: { Self.Both → Self.State };

    ghost told: { Self.Both → Self.Told };

    ghost both: { Self.State → Self.Told → Self.Both };

    fn state(x: Self::Both) -> Self::State
        ensures { result ≡ state x };

    fn told(x: Self::Both) -> Self::Told
        ensures { result ≡ told x };

    fn both(s: Self::State, t: Self::Told) -> Self::Both
        ensures { result ≡ both s t };

    // A struct is its two, put together.
    ghost again: { (x : Self.Both) → both (state x) (told x) ≡ x };
}
