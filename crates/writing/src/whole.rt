// The whole writer.
ghost use Rattle.std.specs.Prelude.{◌≡◌, length};
ghost use Rattle.alphabet.specs.Written.{written};
ghost use Rattle.reading.specs.Buffer.{filled};
ghost use Rattle.spelling.specs.Size.{FormFits};
ghost use Rattle.writing.specs.Promised.{WroteAs};

use super::front::Front;
use answer::Outcome;
use spelling::measure::measure;

// The written form of a source at the front of a buffer: 1, then 2, then 3 with the needed count.
pub fn write(alphabet: usize, src: &[u8], out: &mut [u8]) -> Outcome
    ensures { WroteAs alphabet src.now out.old out.new result }
{
    let told = measure(alphabet, src, out.len());
    if let Outcome::Accepted(_, _) = told {
        put_form(alphabet, src, out);
    }
    told
}

// The digits that the source fills whole, and the ending after them.
fn put_form(alphabet: usize, src: &[u8], out: &mut [u8])
    requires { FormFits alphabet src.now (length out.old) }
    ensures { out.new ≡ filled (written alphabet src.now) out.old }
{
    let begun = Front {
        alphabet,
        taken: 0,
        held: 0,
    };
    let ran = begun.run(src, out);
    let all = Front {
        alphabet,
        taken: src.len(),
        held: ran.held,
    };
    all.put_ending(&table::digits(), ran.written, out);
}
