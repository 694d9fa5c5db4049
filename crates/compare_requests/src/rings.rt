// W-206, questions 5 and 6: a step over a ring, and the view of the object there.
ghost use Rattle.std.specs.Prelude.{◌≤◌, ◌≡◌, length};

use crate::stream::{LIMIT, put_all};
use objects::Cursor;
use ring::{Part, RingStep};

fn stepped(step: RingStep) -> [u64; 5] {
    let to = step.next.at as u64;
    match step.answer {
        Ok(Some(found)) => {
            let o = found.object;
            let number = match found.lies {
                Part::First => 7,
                Part::Second => 8,
                Part::Both => 9,
            };
            [number, o.start as u64, o.size as u64, o.kind as u64, to]
        }
        Ok(None) => [2, 0, 0, 0, to],
        Err(r) => [3, r.number() as u64, r.place() as u64, 0, to],
    }
}

// Answers the view with its length and its bytes; none where the reply was not written.
fn tell_view<'a, P: Print>(output: &P, first: &'a [u8], second: &'a [u8], at: usize) -> Option<()> {
    let view = ring::object(first, second, Cursor { at });
    let mut reply = [0u8; 40];
    put_all(&mut reply, 0, &[10, view.len() as u64, 0, 0, 0]);
    output.write_all(&reply).ok()?;
    output.write_all(view).ok()
}

// Answers a question on the ring of a case, whose second part begins at a place, with the length of the scratch; none
// where it is none of ours or the reply was not written.
pub fn tell_ring<P: Print>(
    output: &P,
    question: u8,
    at: usize,
    case: &[u8],
    part: usize,
    out: &mut [u8],
) -> Option<()>
    requires { (17 ≤ part) × (part ≤ length case.now) × (8209 ≡ length out.old) }
    ensures { 8209 ≡ length out.new }
{
    if case.len() - part < 4 {
        return None;
    }
    let room = fields::get32(case, part) as usize;
    if LIMIT < room {
        return None;
    }
    let first = &case[17..part];
    let second = &case[part + 4..];
    if question == 6 {
        return tell_view(output, first, second, at);
    }
    let step = ring::step(first, second, Cursor { at }, &mut out[40..40 + room]);
    put_all(out, 0, &stepped(step));
    output.write_all(&out[..40 + room]).ok()
}
