// Regrouping a step at a time: a digit into the held bits, perhaps a byte out.
// A width or a number of held bits above 7 is read modulo 8, and a result keeps its 8 low bits.
#![tactic(auto, unfolding(crate::specs::Regroup::fed, crate::specs::Regroup::byte_and))]

ghost use Rattle.std.specs.Prelude.{◌≡◌, ◌+◌, ◌*◌, ◌/◌, ◌%◌, ◌^◌, ◌≤◌, ◌<◌};
ghost use Rattle.regroup.specs.Regroup.{fed};

// After a digit: the byte that it completes, if it does, and the bits held after that.
#[derive(Clone, Copy, PartialEq, Eq, Debug)]
pub struct Fed {
    pub byte: Option<u8>,
    pub held: u8,
}

// A digit v of b bits comes after the r bits held.
pub fn feed(b: usize, r: usize, held: u8, v: u8) -> Fed
    ensures { result ≡ fed b r held v }
{
    let w = b % 8;
    let k = r % 8 + w;
    let z = join(held, w, v);
    if k < 8 {
        return Fed {
            byte: None,
            held: byte_of(z),
        };
    }
    let n = k - 8;
    Fed {
        byte: Some(byte_of(high(z, n))),
        held: byte_of(low(z, n)),
    }
}

// The bits held with w bits more after them.
fn join(held: u8, w: usize, v: u8) -> usize
    requires { w ≤ 8 }
    ensures { result ≡ held * 2 ^ w + v }
{
    ((held as usize) << w) + v as usize
}

// A number without its n low bits.
fn high(z: usize, n: usize) -> usize
    requires { n < 16 }
    ensures { result ≡ z / 2 ^ n }
{
    z >> n
}

// The n low bits of a number.
fn low(z: usize, n: usize) -> usize
    requires { n < 16 }
    ensures { result ≡ z % 2 ^ n }
{
    z & ((1 << n) - 1)
}

fn byte_of(z: usize) -> u8
    ensures { result ≡ z % 256 }
{
    (z % 256) as u8
}
