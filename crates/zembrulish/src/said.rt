// The line that J prints: answer, position and count in decimal, single spaces, byte 10.
use answer::Outcome;
use std::io::{self, Write};

// No Display of an outcome: the third number is the sum over all steps.
pub(crate) fn answer(stdout: &mut impl Write, outcome: Outcome, good: usize) -> io::Result<()> {
    let answer = outcome.answer();
    let position = outcome.position();
    writeln!(stdout, "{answer} {position} {good}")
}

// The answer to a first line that asks for nothing, or whose choice is answer 1.
pub(crate) fn choice(stdout: &mut impl Write) -> io::Result<()> {
    stdout.write_all(b"1 0 0\n")
}
