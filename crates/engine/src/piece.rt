// The runs over a piece: into a second buffer, by stretches, digits as they stand and the byte after them; in place and counting alone, by parts
// (parts.rt). The limit is applied here, once.
ghost use Rattle.std.specs.Prelude.{◌+◌, ◌<◌, ◌≤◌, ◌^◌, ◌≡◌, length};
ghost use Rattle.reading.specs.Limit as Limit;
ghost use Rattle.engine.specs.Ran as Spec;
ghost use Rattle.reading.specs.Buffer.{filled};
ghost use Rattle.engine.specs.Ran.{Ready, ran_as, run_by};
ghost use Rattle.engine.specs.Loop.{Stretch, put_as, put_in};

use crate::digits::Passed;
use crate::rules::Rules;
use crate::step::Taken;
pub use reading::limit;
use rule::choice::Choice;
use rule::state::fresh;
use rule::{Cause, Core};

// Why a run over a piece stopped. Unfit: the choice or the state is none that reading starts from, and nothing was done.
#[derive(Clone, Copy, PartialEq, Eq)]
pub enum Why {
    All,
    Refused(Cause),
    Full,
    Unfit,
}

// The state then, why it stopped, how many bytes it took and how many it gave.
#[derive(Clone, Copy, PartialEq, Eq)]
pub struct Ran {
    pub core: Core,
    pub why: Why,
    pub took: usize,
    pub wrote: usize,
}

impl Ran {
    // A run that took nothing and gave nothing.
    pub(crate) fn nothing(core: Core, why: Why) -> Ran
        ensures { result ≡ record { core = core; why = why; took = 0; wrote = 0 } }
    {
        Ran {
            core,
            why,
            took: 0,
            wrote: 0,
        }
    }

    // A run, and one more after it: the counts are added.
    pub(crate) fn then(self, next: Ran) -> Ran
        requires took_bound { self.took + next.took < 2 ^ 64 }
        requires wrote_bound { self.wrote + next.wrote < 2 ^ 64 }
        ensures { result ≡ Spec.then_as self next }
    {
        Ran {
            // By its fields: moved whole, a `Core` copies its unused bytes too, and with CASE a run falls to half its speed.
            core: Core {
                held: next.core.held,
                ..next.core
            },
            took: self.took + next.took,
            wrote: self.wrote + next.wrote,
            ..next
        }
    }

    // Whether a run that came so far has bytes left to take.
    #[tactic(auto, unfolding(crate::specs::Ran::goes_on))]
    pub(crate) fn goes_on(self, len: usize) -> bool
        ensures { result ≡ Spec.goes_on self.why self.took len }
    {
        self.why == Why::All && self.took < len
    }

    // (a): the byte at the limit is refused, where all before it was taken and the piece goes on.
    #[tactic(auto, unfolding(crate::specs::Ran::limited))]
    fn at_limit(self, len: usize) -> Ran
        ensures { result ≡ Spec.limited self len }
    {
        if self.goes_on(len) {
            Ran {
                why: Why::Refused(Cause::TooLong),
                ..self
            }
        } else {
            self
        }
    }
}

impl Passed {
    // A run that came so far.
    fn ran(self, why: Why) -> Ran
        ensures { result ≡ record { core = self.core; why = why; took = self.took; wrote = self.wrote } }
    {
        Ran {
            core: self.core,
            why,
            took: self.took,
            wrote: self.wrote,
        }
    }

    // What a byte does after digits, with the room for a byte that it gives.
    #[tactic(auto, unfolding(crate::specs::Loop::put_as, crate::specs::Loop::put_in, crate::specs::Loop::taken_as, crate::specs::Loop::taken_in))]
    fn put(self, byte: Result<Taken, Cause>, out: &mut [u8]) -> Ran
        requires took_bound { self.took + 1 < 2 ^ 64 }
        requires wrote_in_bounds { self.wrote ≤ length out.old }
        ensures value { result ≡ put_as self byte (length out.old) }
        ensures out_after { out.new ≡ put_in self byte out.old }
    {
        let (i, n) = (self.took, self.wrote);
        match byte {
            Err(cause) => self.ran(Why::Refused(cause)),
            Ok(taken) => match taken.byte {
                None => Ran {
                    core: taken.core,
                    took: i + 1,
                    ..self.ran(Why::All)
                },
                Some(x) if n < out.len() => {
                    out[n] = x; // n is below the room
                    Ran {
                        core: taken.core,
                        why: Why::All,
                        took: i + 1,
                        wrote: n + 1,
                    }
                }
                Some(_) => self.ran(Why::Full),
            },
        }
    }
}

impl Rules {
    // Digits as they stand, and the byte after them, which `rare` tells of.
    #[tactic(auto, using(crate::proofs::Reaching::stretch_fits))]
    fn stretch(&self, start: Core, piece: &[u8], out: &mut [u8]) -> Ran
        requires { Ready self.now.choice.alphabet start (length piece.now) }
        ensures { Stretch self.now.choice.alphabet self.now.choice.options start piece.now out.old out.new result }
    {
        let p = self.pass(start, piece, out);
        if piece.len() <= p.took {
            return p.ran(Why::All);
        }
        let byte = self.rare(p.core, piece[p.took]);
        p.put(byte, out)
    }

    // A piece into a buffer, in stretches.
    #[tactic(auto, using(crate::proofs::Reaching::reached_fits))]
    pub(crate) fn fill(&self, start: Core, piece: &[u8], out: &mut [u8]) -> Ran
        requires { Ready self.now.choice.alphabet start (length piece.now) }
        ensures value { result ≡ ran_as (run_by self.now.choice start piece.now (length out.old)) }
        ensures out_after { out.new ≡ filled (run_by self.now.choice start piece.now (length out.old)).wrote out.old }
    {
        let mut s = Ran::nothing(start, Why::All);
        // By runs: where the next stretch begins, the run so far tells.
        while s.goes_on(piece.len()) {
            let (i, n) = (s.took, s.wrote);
            let r = self.stretch(s.core, &piece[i..], &mut out[n..]);
            s = s.then(r);
        }
        s
    }
}

// How many of so many bytes lie below the limit.
#[tactic(auto, unfolding(crate::specs::Ran::below))]
fn below_limit(taken: usize, len: usize) -> usize
    requires { taken ≤ Limit.limit }
    ensures { result ≡ Spec.below taken len }
{
    len.min(limit() - taken)
}

// The three runs that callers make have one frame. It stands in each, since each lends another kind of buffer to another loop: a closure for the
// loop would be as long as what it saves.

// A piece into a buffer, from any state.
#[tactic(auto, using(rule::proofs::Readiness::is_ready, crate::proofs::AtLimit::below_length))]
pub fn run(choice: Choice, start: Core, piece: &[u8], out: &mut [u8]) -> Ran
    ensures value { result ≡ Spec.run_as choice.alphabet choice.options start piece.now (length out.old) }
    ensures out_after { out.new ≡ filled (Spec.run_bytes choice.alphabet choice.options start piece.now (length out.old)) out.old }
{
    if !choice.ready(start) {
        return Ran::nothing(start, Why::Unfit);
    }
    let m = below_limit(start.taken, piece.len());
    let r = Rules::of(choice).fill(start, &piece[..m], out);
    r.at_limit(piece.len())
}

// A whole text, counted alone.
#[tactic(auto, using(crate::proofs::AtLimit::below_length))]
pub fn count(choice: Choice, text: &[u8]) -> Ran
    ensures { result ≡ Spec.fresh_as choice.alphabet choice.options text.now }
{
    let start = fresh();
    if !choice.allowed() {
        return Ran::nothing(start, Why::Unfit);
    }
    let m = below_limit(0, text.len());
    let r = Rules::of(choice).tally(start, &text[..m]);
    r.at_limit(text.len())
}

// A whole text in place.
#[tactic(auto, using(crate::proofs::AtLimit::below_length, crate::proofs::AtLimit::below_inside))]
pub fn in_place(choice: Choice, buf: &mut [u8]) -> Ran
    ensures value { result ≡ Spec.fresh_as choice.alphabet choice.options buf.old }
    ensures buf_after { buf.new ≡ filled (Spec.fresh_bytes choice.alphabet choice.options buf.old) buf.old }
{
    let start = fresh();
    if !choice.allowed() {
        return Ran::nothing(start, Why::Unfit);
    }
    let len = buf.len();
    let m = below_limit(0, len);
    let r = Rules::of(choice).settle(start, &mut buf[..m]);
    r.at_limit(len)
}
