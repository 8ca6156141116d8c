// What every crate shares: a bit by its weight, a byte by its place, and why a call is refused. The definitions and laws that all crates cite are in
// specs/ and proofs/.
#![tactic(auto)]

ghost use Rattle.std.specs.Prelude.{◌≡◌, cond, ◌<◌, ◌≤◌, get_or};
ghost use Rattle.common.specs.Bits.{bit_set};

mod refusal;

pub use refusal::{Refusal, number};

// Whether the bit of this weight is set.
pub fn bit(x: u8, weight: u8) -> bool
    requires { 0 < weight }
    ensures { result ≡ bit_set x weight }
{
    x / weight % 2 == 1
}

// The byte w, a bit's weight or a digit's segments, where it is on, else 0.
pub fn weight(on: bool, w: u8) -> u8
    ensures value { result ≡ cond on w 0 }
    ensures bound { result ≤ w }
{
    if on { w } else { 0 }
}

// The byte at place i, or the other one where the bytes end before it.
pub fn byte_or(bytes: &[u8], i: usize, other: u8) -> u8
    ensures { result ≡ get_or bytes.now i other }
{
    bytes.get(i).copied().unwrap_or(other)
}
