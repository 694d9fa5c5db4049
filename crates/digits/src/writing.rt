// Digits and texts put before a place of a buffer: so digits come in the order in which division gives them, and none
// has to be counted. Each function answers where its text starts, and how far before the place that can be.
ghost use Rattle.std.specs.Prelude.{◌+◌, ◌≤◌, ◌<◌, ◌≡◌, length};
ghost use Rattle.digits.specs.Digits.{fixed};
ghost use Rattle.digits.specs.Digits.{glyph as Digits·glyph, decimal as Digits·decimal, hex as Digits·hex};
ghost use Rattle.digits.specs.Text.{Said, labelled as Text·labelled};

#[tactic(auto, unfolding(crate::specs::Digits::glyph))]
fn glyph(d: u64) -> u8
    requires { d < 16 }
    ensures { result ≡ Digits·glyph d }
{
    if d < 10 {
        b'0' + d as u8
    } else {
        b'A' - 10 + d as u8
    }
}

// The last k digits of n.
pub fn spell(n: u64, base: u64, k: usize, out: &mut [u8], end: usize) -> usize
    requires { (1 < base) × (base ≤ 16) × (k ≤ end) × (end ≤ length out.old) }
    ensures { Said result (fixed base k n) out.old out.new end × (end ≤ result + k) }
{
    let at = end - k;
    let mut rest = n;
    for i in (0..k).rev() {
        out[at + i] = glyph(rest % base);
        rest /= base;
    }
    at
}

// n in decimal, two digits for each division.
pub fn decimal(n: u64, out: &mut [u8], end: usize) -> usize
    requires { (20 ≤ end) × (end ≤ length out.old) }
    ensures { Said result (Digits·decimal n) out.old out.new end × (end ≤ result + 20) }
{
    let mut i = end;
    let mut rest = n;
    while 100 <= rest {
        i -= 2;
        let two = rest % 100;
        out[i + 1] = b'0' + (two % 10) as u8;
        out[i] = b'0' + (two / 10) as u8;
        rest /= 100;
    }
    i -= 1;
    out[i] = b'0' + (rest % 10) as u8;
    if rest < 10 {
        return i;
    }
    i -= 1;
    out[i] = b'0' + (rest / 10) as u8;
    i
}

// n in hex, upper case.
pub fn hex(n: u64, out: &mut [u8], end: usize) -> usize
    requires { (16 ≤ end) × (end ≤ length out.old) }
    ensures { Said result (Digits·hex n) out.old out.new end × (end ≤ result + 16) }
{
    let mut i = end;
    let mut rest = n;
    while 16 <= rest {
        i -= 1;
        out[i] = glyph(rest % 16);
        rest /= 16;
    }
    i -= 1;
    out[i] = glyph(rest);
    i
}

// A text.
pub fn put(word: &[u8], out: &mut [u8], end: usize) -> usize
    requires { (length word.now ≤ end) × (end ≤ length out.old) }
    ensures { Said result word.now out.old out.new end × (end ≤ result + length word.now) }
{
    let at = end - word.len();
    fields::put_bytes(out, at, word);
    at
}

// A text, and a number in decimal behind it.
pub fn labelled(word: &[u8], n: u64, out: &mut [u8], end: usize) -> usize
    requires { (length word.now + 20 ≤ end) × (end ≤ length out.old) }
    ensures { Said result (Text·labelled word.now n) out.old out.new end × (end ≤ result + length word.now + 20) }
{
    let here = decimal(n, out, end);
    put(word, out, here)
}
