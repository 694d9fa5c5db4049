// One object as its bytes, in the layout of the type's document and without padding: read out of a log, and written.
ghost use Rattle.std.specs.Prelude.{◌≡◌};
ghost use Rattle.exported.specs.Replies.{reply, lent, Filled};
ghost use Rattle.exported.specs.Records.{look_reply, read_reply, read_into, write_reply, write_into};

use crate::{DONE, ROOM, tell, tell_count};
use objects::Cursor;
use outcomes::{Found, Looked};

// An object of another type was let through.
const OTHER: u32 = 101;

// Answers what a look found: the object's size, which is 0 where there is none of the type, or the refusal's place; and
// the next position.
fn tell_look(out: &mut [u64], l: Looked) -> u32
    ensures { reply result out.new ≡ lent (look_reply l) out.old }
{
    let (number, value) = match l.told {
        Ok(Found::Record) => (0, l.size),
        Ok(Found::Other) => (OTHER, l.size),
        Ok(Found::Done) => (DONE, l.size),
        Err(refusal) => (refusal.number(), refusal.place()),
    };
    tell(out, number, [value as u64, l.next.at as u64])
}

// The object of a type at a position, copied to the front of `bytes`: 0 with its size and the next position; 101 where
// another type was let through and 100 at the log's end, both with 0 and the next position; or the refusal with its
// place and the position. 10 also where `bytes` has no room for the object.
#[unsafe(no_mangle)]
pub extern "C" fn mshelovat_read(
    log: &[u8],
    at: usize,
    kind: u32,
    bytes: &mut [u8],
    out: &mut [u64],
) -> u32
    ensures { Filled (read_reply log.now at kind bytes.old) (read_into log.now at kind bytes.old)
        result bytes.old bytes.new out.old out.new }
{
    let l = outcomes::look(log, Cursor { at }, kind);
    let o = outcomes::cut(log, &l);
    if bytes.len() < o.len() {
        return ROOM;
    }
    if out.len() < 2 {
        return ROOM;
    }
    fields::put_bytes(bytes, 0, o);
    tell_look(out, l)
}

// Writes an object's bytes as what they are, by `records::write_object`, with its padding to the front of `bytes`: 0
// and the bytes used, or the refusal and its place, 0.
#[unsafe(no_mangle)]
pub extern "C" fn mshelovat_write(object: &[u8], bytes: &mut [u8], out: &mut [u64]) -> u32
    ensures { Filled (write_reply object.now bytes.old) (write_into object.now bytes.old)
        result bytes.old bytes.new out.old out.new }
{
    if out.len() < 1 {
        return ROOM;
    }
    tell_count(out, records::write_object(object, bytes))
}
