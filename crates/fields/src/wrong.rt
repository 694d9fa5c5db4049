// The first wrong byte of a run and the first faulty field: asked for only where a refusal is told.
ghost use Rattle.std.specs.Prelude.{◌≡◌, cond, ◌+◌, ◌≤◌, length};
ghost use Rattle.fields.specs.Numbers.{part};
ghost use Rattle.fields.specs.Wrong.{leading, wrong_in};

// How many zeros stand in front of the n bytes at a place; n where all are.
fn leading(s: &[u8], at: usize, n: usize) -> usize
    requires { at + n ≤ length s.now }
    ensures { result ≡ leading (part n s.now at) }
{
    s[at..at + n].iter().position(|&b| b != 0).unwrap_or(n)
}

// The place of the first of n bytes that is not zero; where all are zero, what the later ones say.
pub fn wrong_byte(s: &[u8], at: usize, n: usize, later: usize) -> usize
    requires { at + n ≤ length s.now }
    ensures { result ≡ wrong_in at n s.now later }
{
    let i = leading(s, at, n);
    if i < n { at + i } else { later }
}

// The place of a field that is not right; where it is, what the later ones say.
pub fn wrong_field(right: bool, at: usize, later: usize) -> usize
    ensures { result ≡ cond right later at }
{
    if right { later } else { at }
}
