// The meaning of writing: definitions and their laws. Of code only what counts: the longest source, the length of a written form, the test of a
// writer's numbers, and what a whole call answers.
#![tactic(auto)]

pub mod measure; // measure.rt: what the whole writer answers, asked without a buffer

ghost use Rattle.std.specs.Prelude.{◌≡◌, ◌<◌, ◌≤◌};
ghost use Rattle.alphabet.specs.Written.{written_length};
ghost use Rattle.reading.specs.Limit.{limit};
ghost use Rattle.spelling.specs.Sound.{sound_numbers};
ghost use Rattle.spelling.specs.Size.{longest_of, size_of};

// Why a run over a piece stopped: all of it is taken, a byte is refused for the limit, or the next byte needs room.
#[derive(Clone, Copy, PartialEq, Eq)]
pub enum Why {
    All,
    Limit,
    Room,
}

// Why there is no length to tell: no alphabet has the number, or the written form exceeds the limit.
#[derive(Clone, Copy, Debug, PartialEq, Eq)]
pub enum NoSize {
    Unknown,
    TooLong,
}

// The longest source whose written form is within the limit; 0 for an alphabet above 5, as `longest_of` has it.
pub fn longest(alphabet: usize) -> usize
    ensures { result ≡ longest_of alphabet }
{
    alphabet::sizes::bits(alphabet) * reading::limit() / 8
}

// The length of the written form of n bytes: their digits, up to the end of a group. The bounds stay a clause: a type would be made for this call.
fn written_len(alphabet: usize, n: usize) -> usize
    requires { (alphabet < 6) × (written_length alphabet n ≤ limit) }
    ensures { result ≡ written_length alphabet n }
{
    let digits = (8 * n).div_ceil(alphabet::sizes::bits(alphabet));
    digits.next_multiple_of(alphabet::sizes::group(alphabet))
}

// The length of the written form of n bytes, where there is one within the limit.
pub fn size_of(alphabet: usize, n: usize) -> Result<usize, NoSize>
    ensures { result ≡ size_of alphabet n }
{
    if 5 < alphabet {
        Err(NoSize::Unknown)
    } else if longest(alphabet) < n {
        Err(NoSize::TooLong)
    } else {
        Ok(written_len(alphabet, n))
    }
}

// Whether a source gives these numbers: so many bytes taken, and such bits held.
pub fn sound(alphabet: usize, taken: usize, held: u8) -> bool
    ensures { result ≡ sound_numbers alphabet taken held }
{
    alphabet < 6
        && taken <= longest(alphabet)
        && held >> (8 * taken % alphabet::sizes::bits(alphabet)) == 0
}
