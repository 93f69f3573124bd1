// What a run reads by, made once a call and lent. That a state has room for a piece (`Ready`), or for
// a byte (`Fit`), stays a clause: it ties the state to the piece that comes with it, and a struct of both would be made anew at every call.
ghost use Rattle.std.specs.Prelude.{◌≡◌, true};
ghost use Rattle.reading.specs.Options as Options;

use rule::choice::Choice;
use table::Table;

// A table and a choice that is allowed.
#[derive(Drop)]
pub struct Rules {
    pub table: Table,
    pub choice: Choice,
    pub ghost allowed: { Options.allowed choice.alphabet choice.options ≡ true },
}

impl Rules {
    // The rules of a choice.
    pub(crate) fn of(choice: Choice) -> Rules
        requires { Options.allowed choice.alphabet choice.options ≡ true }
        ensures { result.choice ≡ choice }
    {
        Rules {
            table: table::table(),
            choice,
        }
    }
}
