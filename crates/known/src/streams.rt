// 01's stream: Zm9v offered with room 1, the rest with room 2, and the finish; by value, and through the lent form.
use crate::show;
use answer::Stepped;
use rule::choice::Choice;
use std::fmt::Display;
use stream::reader::Reader;

fn say(rt: &impl Print, asked: impl Display + Drop, made: Stepped<Reader>, out: &[u8]) -> Reader {
    let taken = made.told.taken.0;
    let _ = print!(rt; "takes {taken} ");
    show::line(rt, asked, made.told.outcome, out);
    made.state
}

// How the reader is stepped and finished is the caller's to say.
fn offered<S, F>(rt: &impl Print, how: &str, start: Reader, step: S, finish: F)
where
    S: Fn(Reader, &[u8], &mut [u8]) -> Stepped<Reader>,
    F: Fn(Reader) -> Stepped<Reader>,
    requires step { S.IsAlwaysCallable step }
    requires finish { F.IsAlwaysCallable finish }
{
    let mut one = [0; 1];
    let mut two = [0; 2];
    let reader = say(
        rt,
        format_args!("Zm9v with room 1{how}"),
        step(start, b"Zm9v", &mut one),
        &one,
    );
    let reader = say(
        rt,
        format_args!("9v with room 2{how}"),
        step(reader, b"9v", &mut two),
        &two,
    );
    say(rt, "finish", finish(reader), b"");
}

pub(crate) fn example(rt: &impl Print) {
    let strict = Choice {
        alphabet: 0,
        options: 0,
    };
    let Ok(reader) = Reader::start(strict) else {
        let _ = print!(rt; "declined");
        return;
    };
    offered(
        rt,
        "",
        reader,
        |state, piece, out| state.step(piece, out),
        |state| state.finish(),
    );
    offered(
        rt,
        ", lent",
        reader,
        lent::reader::step_through,
        lent::reader::finish_through,
    )
}
