// The meaning of reading: definitions and their laws, and the one number of 01 that code and definitions share.
#![tactic(auto)]

ghost use Rattle.std.specs.Prelude.{◌≡◌};
ghost use Rattle.reading.specs.Limit as Limit;

// The limit L of 01, in bytes of text. Its number stands here, in specs/Limit.antt, and nowhere else.
pub fn limit() -> usize
    ensures { result ≡ Limit.limit }
{
    16777216
}
