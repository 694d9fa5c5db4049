// What the line of a record tells.
ghost use Rattle.std.specs.Prelude.{◌≡◌};
ghost use Rattle.asc.specs.Tells.{head_told, frame_told, counts_told};

use asc_lines::{Counts, Frame, Head};
use headers::Header;

// The time of a header, and a channel.
#[tactic(auto, using(std::proofs::lemmas::Bool::Decides::nat_tests), unfolding(crate::specs::Tells::head_told, crate::specs::Tells::seconds_of, crate::specs::Tells::nanos_of))]
pub(crate) fn head_told(h: Header, channel: u16) -> Head
    ensures { result ≡ head_told h channel }
{
    let (seconds, nanos) = if h.unit == 1 {
        (h.stamp / 100_000, h.stamp % 100_000 * 10_000)
    } else {
        (h.stamp / 1_000_000_000, h.stamp % 1_000_000_000)
    };
    Head {
        seconds,
        nanos: nanos as u32,
        channel,
    }
}

pub(crate) fn frame_told(r: can::Message) -> Frame
    ensures { result ≡ frame_told r }
{
    let remote = 128 <= r.flags;
    let mut bytes = r.bytes;
    bytes[asc_lines::shown(remote, r.dlc)..].fill(0);
    Frame {
        id: r.id % 2147483648,
        extended: 2147483648 <= r.id,
        sent: r.flags % 2 == 1,
        remote,
        dlc: r.dlc,
        bytes,
    }
}

#[tactic(auto, unfolding(crate::specs::Tells::counts_told))]
pub(crate) fn counts_told(r: can::Statistic) -> Counts
    ensures { result ≡ counts_told r }
{
    Counts {
        load: r.load,
        standard_data: r.standard_data,
        extended_data: r.extended_data,
        standard_remote: r.standard_remote,
        extended_remote: r.extended_remote,
        errors: r.errors,
        overloads: r.overloads,
    }
}
