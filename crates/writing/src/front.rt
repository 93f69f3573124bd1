// The numbers that a source gives a writer: what comes of a piece after it, and the ending of its text.
#![tactic(auto, using(crate::proofs::Cited::numbers), unfolding(spelling::specs::Machine::why_at))]

ghost use Rattle.std.specs.Prelude.{◌≡◌, ◌+◌, ◌≤◌, length, replicate};
ghost use Rattle.std.proofs.Math.Seq.{paste};
ghost use Rattle.alphabet.specs.Alphabet.{pad};
ghost use Rattle.spelling.specs.Front.{ending};
ghost use Rattle.spelling.specs.Machine as machine;
ghost use Rattle.spelling.specs.Machine.{why_at};
ghost use Rattle.spelling.specs.Sound.{Sound};

use super::Ran;
use spelling::Why;
use table::Digits;

// So many bytes of a source taken, and the bits of them that no digit has yet.
#[derive(Clone, Copy)]
pub(crate) struct Front {
    pub(crate) alphabet: usize,
    pub(crate) taken: usize,
    pub(crate) held: u8,
    ghost sound: { Sound alphabet taken held },
}

impl Front {
    ghost use Rattle.writing.specs.Promised.{RanAs};

    // A piece into room: it is cut at the limit, and the room is asked at each byte.
    pub(crate) fn run(self, piece: &[u8], out: &mut [u8]) -> Ran
        ensures { RanAs (machine.run self.alphabet self.taken self.held piece.now (length out.old)) result out.old out.new }
    {
        let end = piece
            .len()
            .min(spelling::longest(self.alphabet) - self.taken);
        let went = spell::spelled(self.alphabet, self.taken, self.held, &piece[..end], out);
        Ran {
            held: went.held,
            why: why_at(went.taken, end, piece.len()),
            taken: went.taken,
            written: went.written,
        }
    }

    // How many bytes of text a finish adds.
    pub(crate) fn ending_len(self) -> usize
        ensures { result ≡ length (ending self.alphabet self.taken self.held) }
    {
        let whole = spelling::size_of(self.alphabet, self.taken).unwrap();
        whole - 8 * self.taken / alphabet::sizes::bits(self.alphabet)
    }

    // The last digit and the pads, at a place of a buffer that has room for them.
    pub(crate) fn put_ending(self, t: &Digits, at: usize, out: &mut [u8])
        requires { at + length (ending self.alphabet self.taken self.held) ≤ length out.old }
        ensures { out.new ≡ paste out.old at (ending self.alphabet self.taken self.held) (length (ending self.alphabet self.taken self.held)) }
    {
        let b = alphabet::sizes::bits(self.alphabet);
        let few = 8 * self.taken % b;
        if few == 0 {
            return;
        }
        out[at] = table::digit(&t.bytes, self.alphabet, self.held << (b - few));
        put_pads(at + 1, self.ending_len() - 1, out);
    }
}

fn put_pads(at: usize, pads: usize, out: &mut [u8])
    requires { at + pads ≤ length out.old }
    ensures { out.new ≡ paste out.old at (replicate pads pad) pads }
{
    out[at..at + pads].fill(b'=');
}

// Why a run stopped that took so many bytes of a piece of so many, cut at the limit.
fn why_at(taken: usize, end: usize, len: usize) -> Why
    ensures { result ≡ why_at taken end len }
{
    if taken < end {
        Why::Room
    } else if end < len {
        Why::Limit
    } else {
        Why::All
    }
}
