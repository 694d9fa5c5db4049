// The fifth question: the record of one type at a position. The case has the type in the place of the bundle.
ghost use Rattle.std.specs.Prelude.{◌≤◌, length};
ghost use Rattle.compare.specs.Kept.{Kept};

use crate::sheet::{none, put_read};
use objects::Cursor;

// Reads the record of a type, with the bytes of the frame that stands there.
fn read_as(number: u32, out: &mut [u8], log: &[u8], c: Cursor) -> usize
    requires { 40 ≤ length out.old }
    ensures { Kept result out.old out.new }
{
    let frame = objects::frame(log, c);
    match number {
        1 => put_read(out, can_records::read_message(log, c), frame),
        3 => put_read(out, can_records::read_overload(log, c), frame),
        4 => put_read(out, can_records::read_statistic(log, c), frame),
        50 => put_read(out, flexray_records::read_receive(log, c), frame),
        57 => put_read(out, lin_records::read_message(log, c), frame),
        62 => put_read(out, lin_records::read_wake_up(log, c), frame),
        86 => put_read(out, can_records::read_message_two(log, c), frame),
        100 => put_read(out, can_records::read_fd_message(log, c), frame),
        103 => put_read(out, ethernet_records::read_status(log, c), frame),
        120 => put_read(out, ethernet_records::read_frame(log, c), frame),
        121 => put_read(out, ethernet_records::read_forwarded_frame(log, c), frame),
        122 => put_read(out, ethernet_records::read_error(log, c), frame),
        123 => put_read(out, ethernet_records::read_forwarded_error(log, c), frame),
        _ => none(out),
    }
}

// Answers a case of the fifth question; where the reply ends.
pub fn read(out: &mut [u8], case: &[u8]) -> usize
    requires { 40 ≤ length out.old }
    ensures { Kept result out.old out.new }
{
    if case.len() < 21 {
        return none(out);
    }
    let log = fields::get32(case, 1) as usize;
    if case.len() != 21 + log {
        return none(out);
    }
    let end = 17 + log;
    let c = Cursor {
        at: fields::get64(case, 9) as usize,
    };
    read_as(fields::get32(case, end), out, &case[17..end], c)
}
