// Words, numbers and lines, put at a place of a buffer: each function answers where its text ends.
ghost use Rattle.std.specs.Prelude.{◌+◌, ◌≤◌, length};
ghost use Rattle.listing.specs.Text.{said, line_of, object_line, end_line, refused_line, accepted_line, Said};

// A text.
pub fn put(word: &[u8], out: &mut [u8], at: usize) -> usize
    requires { at + length word.now ≤ length out.old }
    ensures { Said at word.now out.old out.new result }
{
    fields::put_bytes(out, at, word);
    at + word.len()
}

// A word, and behind it a number in decimal.
fn say(word: &[u8], n: u64, out: &mut [u8], at: usize) -> usize
    requires { at + (length word.now + 20) ≤ length out.old }
    ensures { Said at (said word.now n) out.old out.new result }
{
    let here = put(word, out, at);
    let mut digits = [0u8; 20];
    let k = io::decimal(n, &mut digits);
    put(&digits[..k], out, here)
}

// Two words, each with its number, and the line's end.
fn line(v: &[u8], m: u64, w: &[u8], n: u64, out: &mut [u8], at: usize) -> usize
    requires { at + (length v.now + length w.now + 41) ≤ length out.old }
    ensures { Said at (line_of v.now m w.now n) out.old out.new result }
{
    let first = say(v, m, out, at);
    let second = say(w, n, out, first);
    put(b"\n", out, second)
}

pub fn object_line(start: u64, size: u64, kind: u64, out: &mut [u8], at: usize) -> usize
    requires { at + 64 ≤ length out.old }
    ensures { Said at (object_line start size kind) out.old out.new result }
{
    let here = say(b"", start, out, at);
    line(b" ", size, b" ", kind, out, here)
}

pub fn end_line(len: u64, count: u64, out: &mut [u8], at: usize) -> usize
    requires { at + 64 ≤ length out.old }
    ensures { Said at (end_line len count) out.old out.new result }
{
    line(b"end ", len, b" objects ", count, out, at)
}

pub fn refused_line(number: u64, place: u64, out: &mut [u8], at: usize) -> usize
    requires { at + 64 ≤ length out.old }
    ensures { Said at (refused_line number place) out.old out.new result }
{
    line(b"refused ", number, b" at ", place, out, at)
}

pub fn accepted_line(count: u64, out: &mut [u8], at: usize) -> usize
    requires { at + 64 ≤ length out.old }
    ensures { Said at (accepted_line count) out.old out.new result }
{
    let here = say(b"accepted ", count, out, at);
    put(b"\n", out, here)
}
