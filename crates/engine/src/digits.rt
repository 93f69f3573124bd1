// Digits as they stand, the one loop over bytes that has to be fast: up to the first byte that is no digit, or that completes a byte without
// room. It works on numbers alone, and is compiled once for each width.
ghost use Rattle.std.specs.Prelude.{◌+◌, ◌<◌, ◌^◌, ◌≡◌, length};
ghost use Rattle.alphabet.specs.Alphabet as Alphabet;
ghost use Rattle.engine.specs.Ran.{Ready};
ghost use Rattle.engine.specs.Loop.{Passes, passed_as};

use crate::rules::Rules;
use rule::Core;
use table::Table;

// What digits came to: the state then, the bytes of text taken and the bytes written.
#[derive(Clone, Copy, PartialEq, Eq)]
pub(crate) struct Passed {
    pub core: Core,
    pub took: usize,
    pub wrote: usize,
}

// Of the byte h, the r low bits are held.
fn after(k: Core, h: u8, r: usize, took: usize, wrote: usize) -> Passed
    requires r_bound { r < 8 }
    requires took_bound { k.digits + took < 2 ^ 40 }
    requires took_bound_2 { k.taken + took < 2 ^ 40 }
    ensures { result ≡ passed_as k h r took wrote }
{
    Passed {
        core: Core {
            digits: k.digits + took,
            held: ((h as usize) % (1 << r)) as u8,
            pads: 0,
            taken: k.taken + took,
        },
        took,
        wrote,
    }
}

// Of h, the r low bits are held, and what stands above them does not count. The loop is not told the options: what digits come to is a part of the run
// whatever they are.
#[tactic(auto, using(crate::proofs::Plain::plain_so_far))]
fn at_width<const B: usize>(
    t: &Table,
    alphabet: usize,
    k: Core,
    piece: &[u8],
    out: &mut [u8],
) -> Passed
    requires alphabet_bound { alphabet < 6 }
    requires b_value { B ≡ Alphabet.bits alphabet }
    requires pads_value { k.pads ≡ 0 }
    requires ready { Ready alphabet k (length piece.now) }
    ensures { Passes alphabet k piece.now out.old out.new result }
{
    let row = alphabet * 256;
    let mut h = k.held as usize;
    let mut r = B * k.digits % 8;
    let mut i: usize = 0;
    let mut n: usize = 0;
    // `n` is the next place of `out`: it moves only where a byte is completed. `i` is counted here, with one end for all: by `enumerate` and an early
    // return at each end it misses the bar of speed. `h` is cut to a byte where the next digit joins it: cut where it is kept, it takes a register
    // more, and hex a third more time.
    for &byte in piece {
        let v = t.values[row + byte as usize];
        if v == 255 {
            break;
        }
        let z = ((h % 256) << B) + v as usize;
        let s = r + B;
        if s < 8 {
            r = s;
        } else {
            if n == out.len() {
                break;
            }
            r = s - 8;
            out[n] = ((z >> r) % 256) as u8;
            n += 1;
        }
        h = z;
        i += 1;
    }
    after(k, (h % 256) as u8, r, i, n)
}

impl Rules {
    // After padding no digit passes. The match gives the loop its const argument, since Rattle computes none.
    #[tactic(auto, using(crate::proofs::Plain::plain_so_far, alphabet::proofs::AlphabetLaws::bits_low, crate::proofs::Loops::filling_begins))]
    pub(crate) fn pass(&self, k: Core, piece: &[u8], out: &mut [u8]) -> Passed
        requires { Ready self.now.choice.alphabet k (length piece.now) }
        ensures { Passes self.now.choice.alphabet k piece.now out.old out.new result }
    {
        if 0 < k.pads {
            return Passed {
                core: k,
                took: 0,
                wrote: 0,
            };
        }
        match alphabet::sizes::bits(self.choice.alphabet) {
            4 => at_width::<4>(&self.table, self.choice.alphabet, k, piece, out),
            5 => at_width::<5>(&self.table, self.choice.alphabet, k, piece, out),
            _ => at_width::<6>(&self.table, self.choice.alphabet, k, piece, out),
        }
    }
}
