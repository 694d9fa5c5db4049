// W-201, questions 1, 2 and 4: the line of an object, at a position, and of a record.
use asc::LineStep;
use objects::{Cursor, Refusal};

fn written(w: Result<usize, Refusal>) -> [u64; 5] {
    match w {
        Ok(n) => [5, n as u64, 0, 0, 0],
        Err(refusal) => [3, refusal.number() as u64, refusal.place() as u64, 0, 0],
    }
}

fn stepped(step: LineStep) -> [u64; 5] {
    let to = step.next.at as u64;
    match step.answer {
        Ok(Some(n)) => [5, n as u64, 0, 0, to],
        Ok(None) => [2, 0, 0, 0, to],
        Err(refusal) => [3, refusal.number() as u64, refusal.place() as u64, 0, to],
    }
}

// Writes the line that a question asks for to `out`; the reply's word and numbers, none where it is no such question.
pub fn line(
    question: u8,
    number: usize,
    first: &[u8],
    second: u32,
    out: &mut [u8],
) -> Option<[u64; 5]> {
    let reply = match (question, second) {
        (1, _) => written(asc::object_line(first, out)),
        (2, _) => stepped(asc::line_at(first, Cursor { at: number }, out)),
        (4, 1) => written(asc::message_line(can_records::message_in(first), out)),
        (4, 3) => written(asc::overload_line(can_records::overload_in(first), out)),
        (4, 4) => written(asc::statistic_line(can_records::statistic_in(first), out)),
        _ => return None,
    };
    Some(reply)
}
