// The questions that ask for a write: the fourth, a log read and written again; the sixth and the seventh, bytes
// written as an object.
ghost use Rattle.objects.specs.Items.{foreign};
ghost use Rattle.outcomes.specs.Writes.{Outcome};
ghost use Rattle.records.specs.Object.{item_in};
ghost use Rattle.records.specs.Rewrite.{Rewritten};
ghost use Rattle.cases.specs.Writes.{Writes};

use crate::replies::{Reply, count_reply};

// The reply to a log read and written again; `out` has what was written.
pub fn rewrite_reply(log: &[u8], out: &mut [u8]) -> Reply
    ensures { Writes (Rewritten log.now) result out.old out.new }
{
    count_reply(5, records::rewrite(log, out))
}

// The reply to bytes written as the object that they are; `out` has what was written.
pub fn write_reply(bytes: &[u8], out: &mut [u8]) -> Reply
    ensures { Writes (Outcome (item_in bytes.now)) result out.old out.new }
{
    count_reply(5, records::write_object(bytes, out))
}

// The reply to bytes offered as a foreign object; `out` has what was written.
pub fn foreign_reply(bytes: &[u8], out: &mut [u8]) -> Reply
    ensures { Writes (Outcome (foreign bytes.now)) result out.old out.new }
{
    count_reply(5, records::write_foreign(bytes, out))
}
