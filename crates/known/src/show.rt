// What a call gave, printed: what was asked, answer, position and count, and then as many bytes of the buffer as it counts, which need not be text.
// A write that fails is let go, and the next is tried.
use answer::Outcome;
use std::fmt::Display;

pub(crate) fn line(rt: &impl Print, asked: impl Display + Drop, outcome: Outcome, out: &[u8]) {
    let answer = outcome.answer();
    let position = outcome.position();
    let count = outcome.count();
    let _ = print!(rt; "{asked}: {answer} {position} {count} ");
    let _ = rt.write_all(&out[..count.min(out.len())]);
    let _ = println!(rt);
}
