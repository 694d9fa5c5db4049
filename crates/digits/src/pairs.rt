// Bytes as pairs of hex digits, each behind a blank: written before a place of a buffer, and read at a place of
// a text.
ghost use Rattle.std.specs.Prelude.{◌+◌, ◌*◌, ◌≤◌, ◌≡◌, [], ◌∷◌, length};
ghost use Rattle.digits.specs.Text.{Said};
ghost use Rattle.digits.specs.Pairs.{pairs, filled};

use crate::reading::read_number;
use crate::writing::{put, spell};

// A blank and the two digits of a byte.
fn put_pair(b: u8, out: &mut [u8], end: usize) -> usize
    requires { (3 ≤ end) × (end ≤ length out.old) }
    ensures { Said result (pairs (b ∷ [])) out.old out.new end }
{
    let here = spell(b as u64, 16, 2, out, end);
    put(b" ", out, here)
}

// The pairs of all the bytes.
pub fn put_pairs(bytes: &[u8], out: &mut [u8], end: usize) -> usize
    requires { (3 * length bytes.now ≤ end) × (end ≤ length out.old) }
    ensures { Said result (pairs bytes.now) out.old out.new end × (end ≤ result + 3 * length bytes.now) }
{
    let mut here = end;
    for b in bytes.iter().rev() {
        here = put_pair(*b, out, here);
    }
    here
}

// k bytes at a place, and zeros.
pub fn get_pairs(k: usize, s: &[u8], at: usize) -> [u8; 8]
    requires { (k ≤ 8) × (at ≤ 1000) }
    ensures { result ≡ filled k s.now at }
{
    let mut out = [0u8; 8];
    for i in 0..k {
        out[i] = read_number(s, at + 3 * i + 1, 16, 2).value as u8;
    }
    out
}
