// ASC lines: of an object given as its bytes, of the object at a position of a log, and a text read as one line.
ghost use Rattle.std.specs.Prelude.{◌≡◌};
ghost use Rattle.asc.specs.Lines.{line_read};
ghost use Rattle.asc.specs.Objects.{line_step, line_into};
ghost use Rattle.exported.specs.Replies.{reply, lent, Filled};
ghost use Rattle.exported.specs.Lines.{object_reply, object_into, place_reply, reading_reply};

use crate::{DONE, ROOM, tell, tell_count};
use objects::Cursor;

// Writes the line of an object's bytes to the front of `bytes`, by `asc::object_line`: 0 and how many bytes it has,
// none for other types and for bytes that are no object; or the refusal and its place, 0.
#[unsafe(no_mangle)]
pub extern "C" fn mshelovat_line(object: &[u8], bytes: &mut [u8], out: &mut [u64]) -> u32
    ensures { Filled (object_reply object.now bytes.old) (object_into object.now bytes.old)
        result bytes.old bytes.new out.old out.new }
{
    if out.len() < 1 {
        return ROOM;
    }
    tell_count(out, asc::object_line(object, bytes))
}

// Writes the line of the object at a position to the front of `bytes`: 0 with how many bytes it has, none for other
// types, and the next position; 100 at the log's end with 0 and the position; or the refusal with its place and the
// position.
#[unsafe(no_mangle)]
pub extern "C" fn mshelovat_line_at(log: &[u8], at: usize, bytes: &mut [u8], out: &mut [u64]) -> u32
    ensures { Filled (place_reply (line_step log.now at bytes.old)) (line_into log.now at bytes.old)
        result bytes.old bytes.new out.old out.new }
{
    if out.len() < 2 {
        return ROOM;
    }
    let step = asc::line_at(log, Cursor { at }, bytes);
    let on = step.next.at as u64;
    match step.answer {
        Ok(Some(n)) => tell(out, 0, [n as u64, on]),
        Ok(None) => tell(out, DONE, [0, on]),
        Err(refusal) => tell(out, refusal.number(), [refusal.place() as u64, on]),
    }
}

// Reads a text as one line: 0 and the 24 numbers of what it tells, or 30 and 24 zeros.
#[unsafe(no_mangle)]
pub extern "C" fn mshelovat_read_line(text: &[u8], out: &mut [u64]) -> u32
    ensures { reply result out.new ≡ lent (reading_reply (line_read text.now)) out.old }
{
    if out.len() < 24 {
        return ROOM;
    }
    match asc::read_line(text) {
        Ok(told) => tell(out, 0, asc::told_numbers(told)),
        Err(refusal) => tell(out, refusal.number(), [0; 24]),
    }
}
