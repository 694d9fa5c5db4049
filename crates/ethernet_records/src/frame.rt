// The Ethernet frame, type 120, and the forwarded frame, type 121, which differs in its number alone.
ghost use Rattle.std.specs.Prelude.{◌≡◌};
ghost use Rattle.headers.specs.Types.{frame, forwarded_frame};
ghost use Rattle.objects.specs.Items.{known};
ghost use Rattle.outcomes.specs.Reads.{record_in, ReadsAs};
ghost use Rattle.outcomes.specs.Writes.{Outcome};
ghost use Rattle.ethernet_records.specs.Framed.{framed, bytes_in};

use crate::lent::write_as;
use ethernet::Frame;
use headers::{Kind, Record, Refusal};
use objects::Cursor;
use outcomes::Read;

// The frame, or forwarded frame, that an object's bytes are: zeros where they are too few. `bytes_in` gives the frame's
// bytes.
pub fn frame_in(o: &[u8]) -> Frame
    ensures { result ≡ (record_in frame o.now).value }
{
    outcomes::record_in(o)
}

// The frame's bytes that stand in an object, of any of the four types: what is behind header and structure, none where
// they are too few.
pub fn bytes_in(o: &[u8]) -> &[u8]
    ensures { result.now ≡ bytes_in o.now }
{
    if !headers::holds(o, Frame::LENGTH) {
        return &o[..0];
    }
    ethernet::frame_view(headers::body(o))
}

// The frame at the cursor, whose bytes are `objects::frame` there.
pub fn read_frame(log: &[u8], c: Cursor) -> Read<Frame>
    ensures { ReadsAs frame (λ f. f.value) log.now c.at result.told result.next result.value }
{
    outcomes::read_as(Kind::EthernetFrame, log, c)
}

// The forwarded frame at the cursor, whose bytes are `objects::frame` there.
pub fn read_forwarded_frame(log: &[u8], c: Cursor) -> Read<Frame>
    ensures { ReadsAs forwarded_frame (λ f. f.value) log.now c.at result.told result.next result.value }
{
    outcomes::read_as(Kind::ForwardedFrame, log, c)
}

// Writes a frame, whose bytes are lent, with its padding to the front of `out`.
pub fn write_frame(r: Frame, lent: &[u8], out: &mut [u8]) -> Result<usize, Refusal>
    ensures { Outcome (known frame (framed r lent.now)) result out.old out.new }
{
    write_as(Kind::EthernetFrame, r, lent, out)
}

// Writes a forwarded frame, whose bytes are lent, with its padding to the front of `out`.
pub fn write_forwarded_frame(r: Frame, lent: &[u8], out: &mut [u8]) -> Result<usize, Refusal>
    ensures { Outcome (known forwarded_frame (framed r lent.now)) result out.old out.new }
{
    write_as(Kind::ForwardedFrame, r, lent, out)
}
