// Cases one after another from an input, and their replies to an output.
ghost use Rattle.std.specs.Prelude.{◌≤◌, ◌≡◌, IfSome, length};

use crate::reading::read;
use crate::sheet::put_reply;
use cases::{Reply, answer, foreign_reply, rewrite_reply, write_reply};
use std::io;
use std::io::Read;

// The most bytes of a log, and of a bundle.
const LIMIT: usize = 65536;

// How many bytes the case has that a head of 17 bytes opens; none where the log or the bundle is above the limit.
fn whole(head: &[u8]) -> Option<usize>
    requires { 17 ≤ length head.now }
    ensures { IfSome result (λ n. (17 ≤ n) × (n ≤ 131089)) }
{
    let log = fields::get32(head, 1) as usize;
    let bundle = fields::get32(head, 5) as usize;
    if LIMIT < log || LIMIT < bundle {
        return None;
    }
    Some(17 + log + bundle)
}

// Reads the next case to the buffer's start and answers its length; none at the input's end and where it is no case of
// ours.
fn next_case<R: Read>(input: &mut R, buf: &mut [u8]) -> Option<usize>
    requires { 131089 ≡ length buf.old }
    ensures within { IfSome result (λ n. n ≤ length buf.new) }
    ensures long { 131089 ≡ length buf.new }
{
    input.read_exact(&mut buf[..17]).ok()?;
    let n = whole(buf)?;
    input.read_exact(&mut buf[17..n]).ok()?;
    Some(n)
}

// The room that a case gives for a write; none where it asks another question or is none of ours.
fn write_room(case: &[u8]) -> Option<usize>
    ensures { IfSome result (λ room. (17 ≤ length case.now) × (room ≤ 65536)) }
{
    if case.len() < 17 || !matches!(case[0], 4 | 6 | 7) {
        return None;
    }
    let room = fields::get64(case, 9) as usize;
    if LIMIT < room || case.len() != 17 + fields::get32(case, 1) as usize {
        return None;
    }
    Some(room)
}

// Writes the bytes to `out`: as a log again, as the object that they are, or as a foreign one.
fn written(question: u8, bytes: &[u8], out: &mut [u8]) -> Reply {
    match question {
        4 => rewrite_reply(bytes, out),
        6 => write_reply(bytes, out),
        _ => foreign_reply(bytes, out),
    }
}

// Puts the reply to a case to the front of `out`, and behind it, where it asks for a write, the bytes of the room;
// answers where it ends.
fn respond(case: &[u8], out: &mut [u8]) -> usize
    requires { 65576 ≡ length out.old }
    ensures { (result ≤ length out.new) × (65576 ≡ length out.new) }
{
    let Some(room) = write_room(case) else {
        put_reply(out, answer(case));
        return 40;
    };
    let end = 40 + room;
    let r = written(case[0], &case[17..], &mut out[40..end]);
    put_reply(out, r);
    end
}

// Answers a case that asks for a record, from a sheet of its own.
fn tell_record<P: Print>(output: &P, case: &[u8]) -> io::Result<()> {
    let mut out = [0u8; 4096];
    let used = read(&mut out, case);
    output.write_all(&out[..used])
}

// Answers a case.
fn tell<P: Print>(output: &P, case: &[u8], out: &mut [u8]) -> io::Result<()>
    requires { 65576 ≡ length out.old }
    ensures { 65576 ≡ length out.new }
{
    if case.first() == Some(&5) {
        return tell_record(output, case);
    }
    let used = respond(case, out);
    output.write_all(&out[..used])
}

// Answers case after case, until the input ends: at most so many.
pub fn serve<R: Read, P: Print>(input: &mut R, output: &P, most: usize) {
    // room for the largest case, and for a reply and a log written again
    let mut buf = [0u8; 131089];
    let mut out = [0u8; 65576];
    for _ in 0..most {
        let Some(n) = next_case(input, &mut buf) else {
            return;
        };
        if tell(output, &buf[..n], &mut out).is_err() {
            return;
        }
    }
}
