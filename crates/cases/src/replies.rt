// A case as bytes, and its reply.
ghost use Rattle.std.specs.Prelude.{◌≡◌};
ghost use Rattle.objects.specs.Replies.{walk_reply};
ghost use Rattle.cases.specs.Replies.{replied, numbers_of, step_reply, reply_to, reply_of};

use objects::{Cursor, Refusal, Step};

// A word for the kind of answer, and its numbers: those that it doesn't have are 0.
#[derive(Clone, Copy)]
pub struct Reply {
    pub word: u64,
    pub first: u64,
    pub second: u64,
    pub third: u64,
    pub next: u64,
}

// The numbers put together.
pub(crate) fn numbers(word: u64, first: u64, second: u64, third: u64, next: u64) -> Reply
    ensures { result ≡ replied word first second third next }
{
    Reply {
        word,
        first,
        second,
        third,
        next,
    }
}

fn step_reply(step: Step) -> Reply
    ensures { result ≡ step_reply step }
{
    let to = step.next.at as u64;
    match step.answer {
        Ok(Some(o)) => numbers(1, o.start as u64, o.size as u64, o.kind as u64, to),
        Ok(None) => numbers(2, 0, 0, 0, to),
        Err(refusal) => numbers(3, refusal.number() as u64, refusal.place() as u64, 0, to),
    }
}

// A count of objects or of bytes, with the word for it; or the refusal.
pub(crate) fn count_reply(word: u64, count: Result<usize, Refusal>) -> Reply
    ensures { result ≡ numbers_of word (walk_reply count) 0 }
{
    match count {
        Ok(n) => numbers(word, n as u64, 0, 0, 0),
        Err(refusal) => numbers(3, refusal.number() as u64, refusal.place() as u64, 0, 0),
    }
}

// The reply to a question: 1 for the step at a position, 2 for the walk, 3 for the check.
#[tactic(auto, unfolding(crate::specs::Replies::reply_to))]
fn reply_to(question: u8, at: usize, log: &[u8], bundle: &[u8]) -> Reply
    ensures { result ≡ reply_to question at log.now bundle.now }
{
    match question {
        1 => step_reply(Cursor { at }.step(log)),
        2 => count_reply(4, objects::walk(log)),
        3 => count_reply(4, slips::check(log, bundle)),
        _ => numbers(0, 0, 0, 0, 0),
    }
}

// The reply to a case. Bytes that are no case get a reply of zeros.
#[tactic(auto, unfolding(crate::specs::Replies::reply_of))]
pub fn answer(case: &[u8]) -> Reply
    ensures { result ≡ reply_of case.now }
{
    if case.len() < 17 {
        return numbers(0, 0, 0, 0, 0);
    }
    let log = fields::get32(case, 1) as usize;
    let bundle = fields::get32(case, 5) as usize;
    if case.len() != 17 + log + bundle {
        return numbers(0, 0, 0, 0, 0);
    }
    let at = fields::get64(case, 9) as usize;
    reply_to(
        fields::get8(case, 0),
        at,
        &case[17..17 + log],
        &case[17 + log..],
    )
}
