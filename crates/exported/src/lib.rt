// The calls for C and Rust: numbers and slices in, the answer's number out, its values into a lent slice.
// A lent slice that is too short is answered by 10, and nothing is written. include/mshelovat.h has the C side.
#![tactic(auto)]

mod line;
mod list;
mod record;
mod rings;
mod trays;

ghost use Rattle.std.specs.Prelude.{◌≡◌};
ghost use Rattle.objects.specs.Next.{next_at};
ghost use Rattle.objects.specs.Walk.{walk_of};
ghost use Rattle.objects.specs.Replies.{walk_reply};
ghost use Rattle.slips.specs.Check.{check_of};
ghost use Rattle.slips.specs.Replies.{check_reply};
ghost use Rattle.exported.specs.Replies.{reply, lent, told_of, step_reply};

use headers::{Fault, Refusal};
pub use line::{mshelovat_line, mshelovat_line_at, mshelovat_read_line};
pub use list::mshelovat_list;
use objects::Cursor;
pub use record::{mshelovat_read, mshelovat_write};
pub use rings::mshelovat_ring_step;
pub use trays::{mshelovat_tray_first, mshelovat_tray_second};

// The lent slice has no room for the answer's values.
const ROOM: u32 = Fault::Room as u32;

// The position is exactly the log's end.
const DONE: u32 = 100;

// Answers this number, and these values into the lent slice.
fn tell<const N: usize>(out: &mut [u64], number: u32, values: [u64; N]) -> u32
    ensures { reply result out.new ≡ lent (reply number values.entry) out.old }
{
    if out.len() < N {
        return ROOM;
    }
    out[..N].copy_from_slice(&values);
    number
}

// Answers 0 and how many objects or bytes there are, or the refusal and its place.
fn tell_count(out: &mut [u64], count: Result<usize, Refusal>) -> u32
    ensures { reply result out.new ≡ lent (told_of (walk_reply count)) out.old }
{
    match count {
        Ok(n) => tell(out, 0, [n as u64]),
        Err(refusal) => tell(out, refusal.number(), [refusal.place() as u64]),
    }
}

// The whole log: 0 and the count of its objects, or the first refusal and its place.
#[unsafe(no_mangle)]
pub extern "C" fn mshelovat_walk(log: &[u8], out: &mut [u64]) -> u32
    ensures { reply result out.new ≡ lent (told_of (walk_reply (walk_of log.now))) out.old }
{
    tell_count(out, objects::walk(log))
}

// The slips of the bundle beside the log: 0 and the count of objects, or the first refusal and its place.
#[unsafe(no_mangle)]
pub extern "C" fn mshelovat_check(log: &[u8], bundle: &[u8], out: &mut [u64]) -> u32
    ensures { reply result out.new ≡ lent (told_of (check_reply (check_of log.now bundle.now))) out.old }
{
    tell_count(out, slips::check(log, bundle))
}

// The object at a position: 0 with its start, size, type and the next position; 100 at the log's end; or the refusal
// and its place. Behind these two the next position is the one handed in.
#[unsafe(no_mangle)]
pub extern "C" fn mshelovat_step(log: &[u8], at: usize, out: &mut [u64]) -> u32
    ensures { reply result out.new ≡ lent (step_reply (next_at log.now at)) out.old }
{
    let step = Cursor { at }.step(log);
    let on = step.next.at as u64;
    match step.answer {
        Ok(Some(o)) => tell(out, 0, [o.start as u64, o.size as u64, o.kind as u64, on]),
        Ok(None) => tell(out, DONE, [on, 0, 0, on]),
        Err(refusal) => tell(out, refusal.number(), [refusal.place() as u64, 0, 0, on]),
    }
}
