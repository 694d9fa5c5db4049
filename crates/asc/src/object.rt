// The line of an object that is given as its bytes.
ghost use Rattle.std.specs.Prelude.{◌≡◌};
ghost use Rattle.asc.specs.Objects.{found, event_in};
ghost use Rattle.asc.specs.Writes.{LineOutcome};

use crate::record::{message_line, overload_line, statistic_line};
use headers::{Kind, Record, Refusal};

// The type by which bytes have a line: their own, where they are exactly one object of a listed type, the unit aside.
// None has a line.
fn line_kind(o: &[u8]) -> Option<Kind>
    ensures { found result o.now ≡ event_in o.now }
{
    if o.len() < 16 {
        return None;
    }
    let kind = Kind::of(fields::get32(o, 12))?;
    headers::head_fault(o, Some(kind)).ok()?;
    if fields::get32(o, 8) as usize != o.len() {
        return None;
    }
    if !headers::header_blank(o) {
        return None;
    }
    if kind == Kind::CanOverload {
        can::Overload::check(headers::body(o)).ok()?;
    }
    Some(kind)
}

// Writes the line of an object's record by its type; nothing for other types.
pub(crate) fn line_as(kind: Option<Kind>, o: &[u8], out: &mut [u8]) -> Result<usize, Refusal>
    ensures { LineOutcome (found kind o.now) result out.old out.new }
{
    let Some(kind) = kind else {
        return Ok(0);
    };
    match kind {
        Kind::CanMessage => message_line(can_records::message_in(o), out),
        Kind::CanOverload => overload_line(can_records::overload_in(o), out),
        Kind::CanStatistic => statistic_line(can_records::statistic_in(o), out),
        _ => Ok(0),
    }
}

// Writes the line of the object that the bytes are, without padding: nothing, and no refusal, where they are no object
// or one of another type.
pub fn object_line(o: &[u8], out: &mut [u8]) -> Result<usize, Refusal>
    ensures { LineOutcome (event_in o.now) result out.old out.new }
{
    line_as(line_kind(o), o, out)
}
