// The program's first line: a verb J, D or E, space, one alphabet digit, space, two digits of options, byte 10.
#![tactic(auto)]

ghost use Rattle.std.specs.Prelude.{◌≡◌, ◌<◌, IfSome};
ghost use Rattle.line.specs.FirstLine.{digit, asked, first_of};

// What a first line asks for, in the numbers that `first_of` gives. Whether its choice is answer 1 is the stream's start to say.
#[derive(Clone, Copy, PartialEq, Eq, Debug)]
pub enum First {
    Judge(usize, usize),
    Decode(usize, usize),
    Encode(usize),
}

// How long a first line is, with its byte 10.
pub const LINE: usize = 7;

// The number that a digit stands for; none of another byte.
fn digit(c: u8) -> Option<usize>
    ensures value { result ≡ digit c }
    ensures upper_bound { IfSome result (λ n. n < 10) }
{
    if c.is_ascii_digit() {
        Some(usize::from(c - b'0'))
    } else {
        None
    }
}

// The verb; E takes no options.
fn ask(verb: u8, alphabet: usize, options: usize) -> Option<First>
    ensures { result ≡ asked verb alphabet options }
{
    match verb {
        b'J' => Some(First::Judge(alphabet, options)),
        b'D' => Some(First::Decode(alphabet, options)),
        b'E' if options == 0 => Some(First::Encode(alphabet)),
        _ => None,
    }
}

// The first line of an input of which this much is there: all of it, or at least as many bytes as the line has.
pub fn parse(input: &[u8]) -> Option<First>
    ensures { result ≡ first_of input.now }
{
    let &[verb, b' ', alphabet, b' ', tens, ones, b'\n', ..] = input else {
        return None;
    };
    let alphabet = digit(alphabet)?;
    let options = 10 * digit(tens)? + digit(ones)?;
    ask(verb, alphabet, options)
}
