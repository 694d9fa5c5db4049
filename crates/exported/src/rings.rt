// The object at a position of a log in two segments.
ghost use Rattle.std.specs.Prelude.{◌≡◌, length};
ghost use Rattle.ring.specs.Ring.{ring_at};
ghost use Rattle.ring.specs.Handed.{scratch_at};
ghost use Rattle.exported.specs.Replies.{reply, lent, Filled};
ghost use Rattle.exported.specs.Rings.{segment, ring_reply};

use crate::{DONE, ROOM, tell};
use objects::Cursor;
use ring::{Part, RingStep};

// Where an object lies.
fn segment(lies: Part) -> u64
    ensures { result ≡ segment lies }
{
    match lies {
        Part::First => 1,
        Part::Second => 2,
        Part::Both => 3,
    }
}

// Answers what a step found: the numbers of a step over one log, and then where the object lies, 0 where there is none.
fn tell_ring(out: &mut [u64], s: RingStep) -> u32
    ensures { reply result out.new ≡ lent (ring_reply s) out.old }
{
    let on = s.next.at as u64;
    match s.answer {
        Ok(Some(found)) => {
            let o = found.object;
            let lies = segment(found.lies);
            tell(
                out,
                0,
                [o.start as u64, o.size as u64, o.kind as u64, on, lies],
            )
        }
        Ok(None) => tell(out, DONE, [on, 0, 0, on, 0]),
        Err(refusal) => tell(out, refusal.number(), [refusal.place() as u64, 0, 0, on, 0]),
    }
}

// The object at a position of the joined log: 0 with its start, size, type, the next position, and where it lies, which
// is 1 for the first segment, 2 for the second, and 3 for both: then it stands in the front of the scratch. 100 at the
// joined log's end, or the refusal and its place: behind these two the next position is the one handed in.
#[unsafe(no_mangle)]
pub extern "C" fn mshelovat_ring_step(
    first: &[u8],
    second: &[u8],
    at: usize,
    scratch: &mut [u8],
    out: &mut [u64],
) -> u32
    ensures { Filled (ring_reply (ring_at first.now second.now at (length scratch.old)))
        (scratch_at first.now second.now at scratch.old)
        result scratch.old scratch.new out.old out.new }
{
    if out.len() < 5 {
        return ROOM;
    }
    let step = ring::step(first, second, Cursor { at }, scratch);
    tell_ring(out, step)
}
