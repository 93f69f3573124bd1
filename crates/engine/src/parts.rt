// A text in parts, each a run into a buffer: counting alone, and in place.
ghost use Rattle.std.specs.Prelude.{◌<◌, ◌≡◌, length};
ghost use Rattle.reading.specs.Buffer.{filled};
ghost use Rattle.engine.specs.Ran.{Ready, ran_as, run_by};
ghost use Rattle.engine.specs.Loop.{Part};

use crate::piece::{Ran, Why};
use crate::rules::Rules;
use rule::Core;

// The end of the part that begins at i and has at most 256 bytes.
fn part_end(i: usize, len: usize) -> usize
    requires { i < len }
    ensures { Part i result len }
{
    i + (len - i).min(256)
}

impl Rules {
    // A part, counted alone: what it gives is put aside.
    fn counted(&self, start: Core, part: &[u8]) -> Ran
        requires { Ready self.now.choice.alphabet start (length part.now) }
        ensures { result ≡ ran_as (run_by self.now.choice start part.now 256) }
    {
        let mut aside = [0; 256];
        self.fill(start, part, &mut aside)
    }

    // Counting alone: room never lacks, since a byte needs more than one byte of text.
    pub(crate) fn tally(&self, start: Core, text: &[u8]) -> Ran
        requires { Ready self.now.choice.alphabet start (length text.now) }
        ensures { result ≡ ran_as (run_by self.now.choice start text.now (length text.now)) }
    {
        let mut s = Ran::nothing(start, Why::All);
        for part in text.chunks(256) {
            s = s.then(self.counted(s.core, part));
            if !s.goes_on(text.len()) {
                return s;
            }
        }
        s
    }

    // In place: a part is put aside, and what it gives is stored over bytes that were read.
    #[tactic(auto, using(reading::proofs::OptionLaws::allowed_alphabet, crate::proofs::Reaching::goes_on_law))]
    pub(crate) fn settle(&self, start: Core, buf: &mut [u8]) -> Ran
        requires { Ready self.now.choice.alphabet start (length buf.old) }
        ensures value { result ≡ ran_as (run_by self.now.choice start buf.old (length buf.old)) }
        ensures buf_after { buf.new ≡ filled (run_by self.now.choice start buf.old (length buf.old)).wrote buf.old }
    {
        let mut s = Ran::nothing(start, Why::All);
        // By hand: where the next part begins, the run so far tells, and the buffer that is read is also written. A part is copied to fixed memory, since
        // no heap is used. `fill` goes by stretches of a piece, this by parts of the buffer.
        while s.goes_on(buf.len()) {
            let (i, n) = (s.took, s.wrote);
            let e = part_end(i, buf.len());
            let m = e - i;
            let mut aside = [0; 256];
            aside[..m].copy_from_slice(&buf[i..e]);
            let r = self.fill(s.core, &aside[..m], &mut buf[n..]); // n is never past i
            s = s.then(r);
        }
        s
    }
}
