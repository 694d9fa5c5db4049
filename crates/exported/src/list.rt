// The objects of a log from a position on, listed in a lent slice.
ghost use Rattle.std.specs.Prelude.{◌≡◌, [], ◌∷◌, ◌+◌, ◌≤◌, length};
ghost use Rattle.std.proofs.lemmas.List.Edits.{sets};
ghost use Rattle.exported.specs.Replies.{Filled};
ghost use Rattle.exported.specs.Lists.{listed, list_of, list_reply};

use crate::{DONE, ROOM, tell};
use objects::{Cursor, Entry};

// The number to be told, how many objects were listed, the position where the next call goes on, and the place of a
// refusal, or 0.
#[derive(Clone, Copy)]
struct Listed {
    number: u32,
    count: usize,
    at: usize,
    place: usize,
}

// Lists one object at a place of the slice.
#[tactic(auto, using(fields::proofs::Writing::copied))]
fn enter(entries: &mut [u64], i: usize, o: Entry)
    requires { i + 3 ≤ length entries.old }
    ensures { entries.new ≡ sets entries.old i (o.start ∷ o.size ∷ o.kind ∷ []) }
{
    entries[i..i + 3].copy_from_slice(&[o.start as u64, o.size as u64, o.kind as u64]);
}

// Lists the objects from the cursor on, until there is no room, the log ends, or an object is refused.
#[tactic(auto, using(crate::proofs::Entering::entering_none))]
fn list(log: &[u8], at: usize, entries: &mut [u64]) -> Listed
    ensures { listed result.number result.count result.at result.place entries.new ≡ list_of log.now at entries.old }
{
    let room = entries.len() / 3;
    let mut c = Cursor { at };
    for count in 0..room {
        let step = c.step(log);
        let (number, place) = match step.answer {
            Ok(Some(o)) => {
                enter(entries, 3 * count, o);
                c = step.next;
                continue;
            }
            Ok(None) => (DONE, 0),
            Err(refusal) => (refusal.number(), refusal.place()),
        };
        return Listed {
            number,
            count,
            at: c.at,
            place,
        };
    }
    Listed {
        number: 0,
        count: room,
        at: c.at,
        place: 0,
    }
}

// Lists the objects from a position on, three numbers each: start, size, type. 0 where there is no room for another
// object, 100 at the log's end, or the refusal: each with how many were listed, the position where the next call goes
// on, which for a refusal is where the refused object begins, and the place of the refusal, or 0.
#[unsafe(no_mangle)]
pub extern "C" fn mshelovat_list(log: &[u8], at: usize, entries: &mut [u64], out: &mut [u64]) -> u32
    ensures { Filled (list_reply (list_of log.now at entries.old)) (list_of log.now at entries.old).entries
        result entries.old entries.new out.old out.new }
{
    if out.len() < 3 {
        return ROOM;
    }
    let l = list(log, at, entries);
    tell(out, l.number, [l.count as u64, l.at as u64, l.place as u64])
}
