// The program: its first line says what to do, the rest of standard input is data, which is read, worked on and written piece by piece.
#![tactic(auto)]

mod pipe; // pipe.rt: standard input through a buffer, and the loop over a stream
mod said; // said.rt: the lines that are no data
mod streams; // streams.rt: the reader and the writer as one kind of stream

use answer::Kind;
use line::First;
use pipe::Pipe;
use rule::choice::Choice;
use std::io::{self, Read, Write};
use stream::reader::Reader;
use streams::Stream;
use writing::Writer;

// J: the reader's good bytes go nowhere, and its answer is told.
fn judge(choice: Choice, pipe: &mut Pipe<impl Read>, stdout: &mut impl Write) -> io::Result<()> {
    let Ok(reader) = Reader::start(choice) else {
        return said::choice(stdout);
    };
    let (outcome, good) = pipe.drive(reader, &mut io::sink())?;
    said::answer(stdout, outcome, good)
}

// D and E: what the stream gives, the good bytes or the digits.
fn convert<S: Stream>(
    start: Result<S, Kind>,
    pipe: &mut Pipe<impl Read>,
    stdout: &mut impl Write,
) -> io::Result<()> {
    let Ok(stream) = start else {
        return said::choice(stdout);
    };
    pipe.drive(stream, stdout)?;
    Ok(())
}

// What the first line asks for, done on the data after it.
fn obey(pipe: &mut Pipe<impl Read>, stdout: &mut impl Write) -> io::Result<()> {
    match pipe.first_line()? {
        Some(First::Judge(alphabet, options)) => {
            judge(Choice { alphabet, options }, pipe, stdout)
        }
        Some(First::Decode(alphabet, options)) => {
            convert(Reader::start(Choice { alphabet, options }), pipe, stdout)
        }
        Some(First::Encode(alphabet)) => convert(Writer::start(alphabet), pipe, stdout),
        None => said::choice(stdout),
    }
}

fn main(rt: HostRuntime) {
    let mut pipe = Pipe::new(rt.stdin());
    let _ = obey(&mut pipe, &mut rt.stdout()); // a failed read or write leaves nothing to say
}
