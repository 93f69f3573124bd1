// The writer's loop: the bytes of a piece as digits. The limit is cut off before, and the ending is put after.
#![tactic(auto, using(crate::proofs::Going::widths), unfolding(crate::specs::Promised::spelled_of))]

ghost use Rattle.std.specs.Prelude.{◌≡◌, ◌/◌, ◌%◌, ◌^◌, ◌<◌, ◌≤◌, length};
ghost use Rattle.alphabet.specs.Alphabet.{bits, digit};
ghost use Rattle.spell.specs.Promised.{spell_of, spelled_of, Spells, leaving, WentAs};

use table::Digits;

// What a run of bytes came to: the bits held, the bytes of the source taken and the digits written.
#[derive(Clone, Copy)]
pub struct Went {
    pub held: u8,
    pub taken: usize,
    pub written: usize,
}

// The b bits that stand above the k low bits of z. Not all that ask have a width that is a constant: `stopped` asks for the few bits held.
fn value(z: usize, k: usize, b: usize) -> u8
    requires { (k < 16) × (b ≤ 6) }
    ensures { result ≡ z / 2 ^ k % 2 ^ b }
{
    ((z >> k) & ((1 << b) - 1)) as u8
}

// Their digit. The bounds stay a clause: a type for them would be made for this call.
fn digit_above<const B: usize>(t: &Digits, alphabet: usize, z: usize, k: usize) -> u8
    requires { (alphabet < 6) × (B ≡ bits alphabet) × (k < 16) }
    ensures { result ≡ digit alphabet (z / 2 ^ k % 2 ^ B) }
{
    table::digit(&t.bytes, alphabet, value(z, k, B))
}

// The few low bits of h are held.
fn stopped(h: u8, few: usize, taken: usize, written: usize) -> Went
    requires { few ≤ 6 }
    ensures { result ≡ leaving h few taken written }
{
    Went {
        held: value(h as usize, 0, few),
        taken,
        written,
    }
}

// A piece into room, up to the first byte that lacks room. Of h only the few low bits count. The width is a constant, so that the loop is compiled
// for each.
fn spell<const B: usize>(
    t: &Digits,
    alphabet: usize,
    taken: usize,
    held: u8,
    piece: &[u8],
    out: &mut [u8],
) -> Went
    requires { Spells alphabet B }
    ensures { WentAs (spell_of alphabet taken held piece.now (length out.old)) result out.old out.new }
{
    let mut few = 8 * (taken % B) % B;
    let mut h = held;
    let mut n = 0; // the next place of `out`: it moves by one digit or two
    for (i, &byte) in piece.iter().enumerate() {
        let z = (h as usize) * 256 + byte as usize;
        let k = few + 8 - B;
        if k < B {
            if out.len() <= n {
                return stopped(h, few, i, n);
            }
            out[n] = digit_above::<B>(t, alphabet, z, k);
            n += 1;
            few = k;
        } else {
            if out.len() < n + 2 {
                return stopped(h, few, i, n);
            }
            let l = k - B;
            out[n] = digit_above::<B>(t, alphabet, z, k);
            out[n + 1] = digit_above::<B>(t, alphabet, z, l);
            n += 2;
            few = l;
        }
        h = (z % 256) as u8;
    }
    stopped(h, few, piece.len(), n)
}

// The loop of the alphabet's width, chosen by a match, since Rattle computes no const argument; digits of four bits leave nothing held. What `spelled`
// is given is passed on as it is: a struct of it would be made for this one call.
fn by_width(
    t: &Digits,
    alphabet: usize,
    taken: usize,
    held: u8,
    piece: &[u8],
    out: &mut [u8],
) -> Went
    requires { Spells alphabet (bits alphabet) }
    ensures { WentAs (spell_of alphabet taken held piece.now (length out.old)) result out.old out.new }
{
    match alphabet::sizes::bits(alphabet) {
        6 => spell::<6>(t, alphabet, taken, held, piece, out),
        5 => spell::<5>(t, alphabet, taken, held, piece, out),
        _ => spell::<4>(t, alphabet, taken, 0, piece, out),
    }
}

// A piece's digits after so many bytes of a source, as far as there is room; nothing for an alphabet above 5.
pub fn spelled(alphabet: usize, taken: usize, held: u8, piece: &[u8], out: &mut [u8]) -> Went
    ensures { WentAs (spelled_of alphabet taken held piece.now (length out.old)) result out.old out.new }
{
    if 5 < alphabet {
        return stopped(0, 0, 0, 0);
    }
    let t = table::digits();
    by_width(&t, alphabet, taken, held, piece, out)
}
