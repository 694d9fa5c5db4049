// The line of a record, written to the front of a buffer. 7 where the time unit is neither ten microseconds nor
// nanoseconds, then 10 where the buffer is too short; both at place 0, and the buffer as it was.
ghost use Rattle.asc.specs.Tells.{head_told, message, overload, statistic};
ghost use Rattle.asc.specs.Writes.{one, LineOutcome, Put, Copied};

use crate::tells::{counts_told, frame_told, head_told};
use asc_lines::{Body, Told};
use headers::{Fault, Header, Refusal};

// Copies a line to the front of a buffer, or refuses with 10.
fn copy_line(line: &[u8], out: &mut [u8]) -> Result<usize, Refusal>
    ensures { Copied line.now result out.old out.new }
{
    if out.len() < line.len() {
        return Err(Fault::Room.at(0));
    }
    fields::put_bytes(out, 0, line);
    Ok(line.len())
}

// Writes the line of what is told at a header's time.
fn put_told(h: Header, channel: u16, body: Body, out: &mut [u8]) -> Result<usize, Refusal>
    ensures { Put h.unit (record { head = head_told h channel; body = body }) result out.old out.new }
{
    if !headers::unit_ok(h.unit) {
        return Err(Fault::Unit.at(0));
    }
    let head = head_told(h, channel);
    let mut line = [0u8; 256];
    let n = asc_lines::put_line(Told { head, body }, &mut line);
    copy_line(&line[n..], out)
}

// Writes the line of a message.
pub fn message_line(r: can::Message, out: &mut [u8]) -> Result<usize, Refusal>
    ensures { LineOutcome (one (message r)) result out.old out.new }
{
    put_told(r.header, r.channel, Body::Message(frame_told(r)), out)
}

// Writes the line of an overload.
pub fn overload_line(r: can::Overload, out: &mut [u8]) -> Result<usize, Refusal>
    ensures { LineOutcome (one (overload r)) result out.old out.new }
{
    put_told(r.header, r.channel, Body::Overload, out)
}

// Writes the line of a statistic.
pub fn statistic_line(r: can::Statistic, out: &mut [u8]) -> Result<usize, Refusal>
    ensures { LineOutcome (one (statistic r)) result out.old out.new }
{
    put_told(r.header, r.channel, Body::Statistic(counts_told(r)), out)
}
