// What stands at a place of a text: a number, a byte.
ghost use Rattle.std.specs.Prelude.{◌+◌, ◌≤◌, ◌<◌, ◌^◌, ◌≡◌, get_or};
ghost use Rattle.digits.specs.Reading.{digit as Reading·digit, number};

// A number, and the place behind its digits.
#[derive(Clone, Copy)]
pub struct Number {
    pub value: u64,
    pub end: usize,
}

// The digit that a code stands for; 16 where it is no digit, which is one over no base.
#[tactic(auto, using(std::proofs::lemmas::Bool::Decides::nat_tests), unfolding(crate::specs::Reading::digit))]
fn digit(c: u8) -> u64
    ensures { result ≡ Reading·digit c }
{
    match c {
        b'0'..=b'9' => u64::from(c - b'0'),
        b'A'..=b'F' => u64::from(c - b'A') + 10,
        _ => 16,
    }
}

// The number of at most `most` digits at a place: 0 where none stands there.
pub fn read_number(s: &[u8], at: usize, base: u64, most: usize) -> Number
    requires { (1 < base) × (base ≤ 16) × (base ^ most ≤ 18446744073709551616) }
    ensures { (result ≡ number base most s.now at) × (result.end ≤ at + most) }
{
    let mut value = 0;
    let mut end = at;
    for _ in 0..most {
        let d = digit(byte(s, end));
        if base <= d {
            break;
        }
        value = value * base + d;
        end += 1;
    }
    Number { value, end }
}

// The byte at a place; 0 past the text's end.
pub fn byte(s: &[u8], at: usize) -> u8
    ensures { result ≡ get_or s.now at 0 }
{
    s.get(at).copied().unwrap_or(0)
}
