// The line of the object at a cursor of a log.
ghost use Rattle.std.specs.Prelude.{◌≡◌};
ghost use Rattle.asc.specs.Objects.{line_step, line_into};

use crate::object::line_as;
use headers::Kind;
use objects::{Cursor, Refusal};

// The answer with the next cursor, which after done and a refusal is the one before.
#[derive(Clone, Copy)]
pub struct LineStep {
    // The bytes of the line, 0 for an object of another type. No line: done, the position is exactly the log's end. A
    // refusal is 1 to 9 and the byte at fault, as a step tells them; or 10 at place 0.
    pub answer: Result<Option<usize>, Refusal>,
    pub next: Cursor,
}

// Writes the line of the object at the cursor to the front of `out`.
pub fn line_at(log: &[u8], c: Cursor, out: &mut [u8]) -> LineStep
    ensures { (result ≡ line_step log.now c.at out.old) × (out.new ≡ line_into log.now c.at out.old) }
{
    let step = c.step(log);
    match step.answer {
        Ok(Some(o)) => match line_as(Kind::of(o.kind), &log[o.start..o.start + o.size], out) {
            Ok(n) => LineStep {
                answer: Ok(Some(n)),
                next: step.next,
            },
            Err(refusal) => LineStep {
                answer: Err(refusal),
                next: c,
            },
        },
        Ok(None) => LineStep {
            answer: Ok(None),
            next: step.next,
        },
        Err(refusal) => LineStep {
            answer: Err(refusal),
            next: step.next,
        },
    }
}
