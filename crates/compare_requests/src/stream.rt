// Cases one after another from an input, and their replies to an output.
ghost use Rattle.std.specs.Prelude.{◌≤◌, ◌+◌, ◌*◌, ◌≡◌, IfSome, length};

use crate::lines::line;
use crate::rings::tell_ring;
use crate::told::tell_text;
use crate::trays::tell_tray;
use std::io::Read;

// The most bytes of a part, and of a room.
pub const LIMIT: usize = 4096;

// Puts numbers one behind the other, each in eight bytes.
pub fn put_all(out: &mut [u8], from: usize, values: &[u64])
    requires { from + 8 * length values.now ≤ length out.old }
    ensures { length out.new ≡ length out.old }
{
    for (i, v) in values.iter().enumerate() {
        fields::put64(out, from + 8 * i, *v);
    }
}

// Reads the next case to the buffer's start and answers its length; none at the input's end and where it is no case of
// ours.
fn next_case<R: Read>(input: &mut R, buf: &mut [u8]) -> Option<usize>
    requires { 8209 ≡ length buf.old }
    ensures within { IfSome result (λ n. n ≤ length buf.new) }
    ensures long { 8209 ≡ length buf.new }
{
    input.read_exact(&mut buf[..17]).ok()?;
    let first = fields::get32(buf, 1) as usize;
    let second = fields::get32(buf, 5) as usize;
    if LIMIT < first || LIMIT < second {
        return None;
    }
    let end = 17 + first + second;
    input.read_exact(&mut buf[17..end]).ok()?;
    Some(end)
}

// Puts the reply to a case to the front of `out`, and behind it the bytes of the room; answers where it ends, none where
// it is no case of ours.
fn respond(question: u8, number: usize, first: &[u8], second: u32, out: &mut [u8]) -> Option<usize>
    requires { 8209 ≡ length out.old }
    ensures within { IfSome result (λ n. n ≤ length out.new) }
    ensures long { 8209 ≡ length out.new }
{
    let room = if question == 2 {
        second as usize
    } else {
        number
    };
    if LIMIT < room {
        return None;
    }
    let reply = line(question, number, first, second, &mut out[40..40 + room])?;
    put_all(out, 0, &reply);
    Some(40 + room)
}

// Answers a case; none where it is none of ours or the reply was not written.
fn tell<P: Print>(output: &P, case: &[u8], out: &mut [u8]) -> Option<()>
    requires { 8209 ≡ length out.old }
    ensures { 8209 ≡ length out.new }
{
    if case.len() < 17 {
        return None;
    }
    let question = case[0];
    let number = fields::get64(case, 9) as usize;
    let end = 17 + fields::get32(case, 1) as usize;
    if case.len() < end {
        return None;
    }
    match question {
        3 => tell_text(output, &case[17..end]),
        7 => tell_tray(output, number, case, end, out),
        5.. => tell_ring(output, question, number, case, end, out),
        _ => {
            let second = if case.len() - end == 4 {
                fields::get32(case, end)
            } else {
                0
            };
            let used = respond(question, number, &case[17..end], second, out)?;
            output.write_all(&out[..used]).ok()
        }
    }
}

// Answers case after case, until the input ends: at most so many.
pub fn serve<R: Read, P: Print>(input: &mut R, output: &P, most: usize) {
    // room for the largest case; and for a reply, whose word and numbers stand before the room of a case
    let mut buf = [0u8; 8209];
    let mut out = [0u8; 8209];
    for _ in 0..most {
        let Some(n) = next_case(input, &mut buf) else {
            return;
        };
        if tell(output, &buf[..n], &mut out).is_none() {
            return;
        }
    }
}
