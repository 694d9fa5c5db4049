// The Ethernet error, type 122, and the forwarded error, type 123, which differs in its number alone: a frame that went
// wrong.
ghost use Rattle.std.specs.Prelude.{◌≡◌};
ghost use Rattle.headers.specs.Types.{ethernet_error, forwarded_error};
ghost use Rattle.objects.specs.Items.{known};
ghost use Rattle.outcomes.specs.Reads.{record_in, ReadsAs};
ghost use Rattle.outcomes.specs.Writes.{Outcome};
ghost use Rattle.ethernet_records.specs.Framed.{framed};

use crate::lent::write_as;
use ethernet::FrameError;
use headers::{Kind, Refusal};
use objects::Cursor;
use outcomes::Read;

// The error, or forwarded error, that an object's bytes are: zeros where they are too few. `bytes_in` gives the frame's
// bytes.
pub fn error_in(o: &[u8]) -> FrameError
    ensures { result ≡ (record_in ethernet_error o.now).value }
{
    outcomes::record_in(o)
}

// The error at the cursor; the frame's bytes are `objects::frame` there.
pub fn read_error(log: &[u8], c: Cursor) -> Read<FrameError>
    ensures { ReadsAs ethernet_error (λ f. f.value) log.now c.at result.told result.next result.value }
{
    outcomes::read_as(Kind::EthernetError, log, c)
}

// The forwarded error at the cursor; the frame's bytes are `objects::frame` there.
pub fn read_forwarded_error(log: &[u8], c: Cursor) -> Read<FrameError>
    ensures { ReadsAs forwarded_error (λ f. f.value) log.now c.at result.told result.next result.value }
{
    outcomes::read_as(Kind::ForwardedError, log, c)
}

// Writes an error, whose frame is lent, with its padding to the front of `out`.
pub fn write_error(e: FrameError, lent: &[u8], out: &mut [u8]) -> Result<usize, Refusal>
    ensures { Outcome (known ethernet_error (framed e lent.now)) result out.old out.new }
{
    write_as(Kind::EthernetError, e, lent, out)
}

// Writes a forwarded error, whose frame is lent, with its padding to the front of `out`.
pub fn write_forwarded_error(e: FrameError, lent: &[u8], out: &mut [u8]) -> Result<usize, Refusal>
    ensures { Outcome (known forwarded_error (framed e lent.now)) result out.old out.new }
{
    write_as(Kind::ForwardedError, e, lent, out)
}
