// Standard input through a buffer, and the one loop over a stream: every turn reads, or takes bytes of the data, or ends.
ghost use Rattle.std.specs.Prelude.{◌≤◌};
ghost use Rattle.zembrulish.specs.declared.pipe.TheConstants.{SIZE};

use crate::streams::Stream;
use answer::Outcome;
use line::{First, LINE};
use std::io::{self, ErrorKind, Read, Write};
use std::ops::ControlFlow;
use turns::{Going, Turn, after};

// How many bytes are held at a time, of the data and of what a stream gives.
const SIZE: usize = 65536;

// More turns than any data take until the answer is settled, a byte a turn and a read before each.
const TURNS: u64 = 1 << 32;

// Standard input, the bytes of it up to `end` that were read last, and a buffer for what a stream gives: fixed memory, so an end stands beside.
#[derive(Drop)]
pub(crate) struct Pipe<R> {
    stdin: R,
    buf: [u8; SIZE],
    end: usize,
    out: [u8; SIZE],
    ghost within: { end ≤ SIZE },
}

impl<R: Read> Pipe<R> {
    pub(crate) fn new(stdin: R) -> Pipe<R> {
        Pipe {
            stdin,
            buf: [0; SIZE],
            end: 0,
            out: [0; SIZE],
        }
    }

    // Reads until the first line is there, or the input ends: a pipe may hand it over in pieces, of a byte or more each.
    // What came with it is data. `read_exact` of the line alone would lose the rest of a datagram, and try an interrupted read again.
    pub(crate) fn first_line(&mut self) -> io::Result<Option<First>> {
        for _ in 0..LINE {
            if self.end < LINE {
                match self.stdin.read(&mut self.buf[self.end..])? {
                    0 => break,
                    n => self.end += n,
                }
            }
        }
        Ok(line::parse(&self.buf[..self.end]))
    }

    // The bytes that a stream gave go to the sink, and their number is told.
    fn give(&self, outcome: Outcome, sink: &mut impl Write) -> io::Result<usize> {
        let n = outcome.count().min(SIZE);
        sink.write_all(&self.out[..n])?;
        Ok(n)
    }

    // A step over what is left in the buffer; or a read; or, at the end of the data, the finish.
    fn turn<S: Stream>(&mut self, going: Going<S>, sink: &mut impl Write) -> io::Result<Turn<S>> {
        let Going { state, good, at } = going;
        if at < self.end {
            let Pipe { buf, end, out, .. } = self;
            let stepped = state.step(&buf[at..*end], out);
            let n = self.give(stepped.told.outcome, sink)?;
            return Ok(after(stepped, n, good, at, self.end));
        }
        self.end = self.stdin.read(&mut self.buf)?;
        if self.end > 0 {
            return Ok(ControlFlow::Continue(Going { state, good, at: 0 }));
        }
        let finished = state.finish(&mut self.out);
        self.give(finished.told.outcome, sink)?;
        Ok(ControlFlow::Break((finished.told.outcome, good)))
    }

    // The stream over the data after the first line, until its answer is settled, which is told with the number of bytes given.
    pub(crate) fn drive<S: Stream>(
        &mut self,
        start: S,
        sink: &mut impl Write,
    ) -> io::Result<(Outcome, usize)> {
        let mut going = Going {
            state: start,
            good: 0,
            at: LINE,
        };
        for _ in 0..TURNS {
            match self.turn(going, sink)? {
                ControlFlow::Continue(next) => going = next,
                ControlFlow::Break(answer) => return Ok(answer),
            }
        }
        Err(ErrorKind::TimedOut.into()) // no data take so many turns
    }
}
