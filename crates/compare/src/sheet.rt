// A sheet: a reply of 40 bytes, and behind it a record's numbers, eight bytes each. What does not fit is left out.
ghost use Rattle.std.specs.Prelude.{◌≤◌, length};
ghost use Rattle.compare.specs.Kept.{Kept};
ghost use Rattle.fields.specs.Written.{Wrote};
ghost use Rattle.cases.specs.Replies.{reply_bytes};

use cases::Reply;
use headers::{Header, Origin};
use outcomes::{Found, Read};

// Where the numbers begin: behind the reply.
const FRONT: usize = 40;

// The reply's numbers, each in eight bytes.
pub fn put_reply(out: &mut [u8], r: Reply)
    requires { 40 ≤ length out.old }
    ensures { Wrote 0 (reply_bytes r) out.old out.new }
{
    fields::put64(out, 0, r.word);
    fields::put64(out, 8, r.first);
    fields::put64(out, 16, r.second);
    fields::put64(out, 24, r.third);
    fields::put64(out, 32, r.next);
}

// Puts a number at a place; answers the place behind it.
fn put(out: &mut [u8], at: usize, v: u64) -> usize
    requires { at ≤ length out.old }
    ensures { Kept result out.old out.new }
{
    if out.len() - at < 8 {
        return at;
    }
    fields::put64(out, at, v);
    at + 8
}

// Puts numbers one behind the other.
pub fn put_all<T: Copy + Into<u64>>(out: &mut [u8], from: usize, values: &[T]) -> usize
    requires { from ≤ length out.old }
    ensures { Kept result out.old out.new }
{
    let mut at = from;
    for v in values {
        at = put(out, at, (*v).into());
    }
    at
}

// Puts bytes as they are.
fn put_run(out: &mut [u8], from: usize, bytes: &[u8]) -> usize
    requires { from ≤ length out.old }
    ensures { Kept result out.old out.new }
{
    if out.len() - from < bytes.len() {
        return from;
    }
    fields::put_bytes(out, from, bytes);
    from + bytes.len()
}

// The numbers of a header: the unit; which header it is; what stands at byte 20, the client index or the time stamp
// status; version, time stamp; and the original time stamp, 0 where the header has none.
fn header_numbers(h: Header) -> [u64; 6] {
    let (which, byte_20, original) = match h.origin {
        Origin::First { client } => (1, u64::from(client), 0),
        Origin::Second { status, original } => (2, u64::from(status), original),
    };
    [
        u64::from(h.unit),
        which,
        byte_20,
        u64::from(h.version),
        h.stamp,
        original,
    ]
}

// Puts the numbers of a header, the first of every record.
pub fn put_header(out: &mut [u8], h: Header) -> usize
    requires { 40 ≤ length out.old }
    ensures { Kept result out.old out.new }
{
    put_all(out, FRONT, &header_numbers(h))
}

// A reply whose fourth number is 0.
fn reply(word: u64, first: u64, second: u64, next: u64) -> Reply {
    Reply {
        word,
        first,
        second,
        third: 0,
        next,
    }
}

// A record whose numbers make a sheet, in the order of its fields.
pub trait Sheet {
    // Puts them behind the reply; answers where they end.
    fn put(self, out: &mut [u8]) -> usize
        requires { 40 ≤ length out.old }
        ensures { Kept result out.old out.new };
}

// Puts what a read answers: the record's numbers, and the reply: 6 and where they end, with the bytes of its frame behind
// them; 7 for an object of another type; 2 at the log's end; 3 and the refusal. Answers where all ends.
pub fn put_read<T: Sheet>(out: &mut [u8], read: Read<T>, frame: &[u8]) -> usize
    requires { 40 ≤ length out.old }
    ensures { Kept result out.old out.new }
{
    let end = read.value.put(out);
    let to = read.next.at as u64;
    match read.told {
        Ok(Found::Record) => {
            put_reply(out, reply(6, end as u64, frame.len() as u64, to));
            return put_run(out, end, frame);
        }
        Ok(Found::Other) => put_reply(out, reply(7, 0, 0, to)),
        Ok(Found::Done) => put_reply(out, reply(2, 0, 0, to)),
        Err(refusal) => {
            put_reply(
                out,
                reply(3, refusal.number() as u64, refusal.place() as u64, to),
            );
        }
    }
    FRONT
}

// The reply to what is no case of ours: zeros.
pub fn none(out: &mut [u8]) -> usize
    requires { 40 ≤ length out.old }
    ensures { Kept result out.old out.new }
{
    put_reply(out, reply(0, 0, 0, 0));
    FRONT
}
