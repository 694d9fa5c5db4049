// A tray of CAN messages, all under the first header or all under the second.
ghost use Rattle.std.specs.Prelude.{◌≡◌};
ghost use Rattle.tray.specs.Tray.{tray_of};
ghost use Rattle.exported.specs.Replies.{reply, lent, Filled};
ghost use Rattle.exported.specs.Trays.{filled_reply, under_first, under_second, TrayFilled};

use crate::{ROOM, tell};
use headers::Origin;
use tray::{Common, Trayed};

// Answers the refusal, or 0, and how many messages were written.
fn tell_tray(out: &mut [u64], t: Trayed) -> u32
    ensures { reply result out.new ≡ lent (filled_reply t) out.old }
{
    let written = t.written as u64;
    match t.answer {
        Ok(()) => tell(out, 0, [written]),
        Err(refusal) => tell(out, refusal.number(), [written]),
    }
}

// Writes the tray, where there is room to tell of it.
fn write(
    c: Common,
    ids: &[u32],
    stamps: &[u64],
    data: &[u8],
    bytes: &mut [u8],
    out: &mut [u64],
) -> u32
    ensures { TrayFilled (tray_of c ids.now stamps.now «data».now bytes.old)
        result bytes.old bytes.new out.old out.new }
{
    if out.len() < 1 {
        return ROOM;
    }
    let t = tray::write_messages(c, ids, stamps, data, bytes);
    tell_tray(out, t)
}

// Writes CAN messages under the first header, one for each id, one behind the other to the front of `bytes`: 0 and how
// many were written, or the refusal, 7, 10 or 31, and how many were written before it. Its place, 0, is not told.
#[unsafe(no_mangle)]
pub extern "C" fn mshelovat_tray_first(
    unit: u32,
    client: u16,
    version: u16,
    channel: u16,
    flags: u8,
    dlc: u8,
    ids: &[u32],
    stamps: &[u64],
    data: &[u8],
    bytes: &mut [u8],
    out: &mut [u64],
) -> u32
    ensures { TrayFilled (tray_of (under_first unit client version channel flags dlc)
        ids.now stamps.now «data».now bytes.old)
        result bytes.old bytes.new out.old out.new }
{
    let origin = Origin::First { client };
    let c = Common {
        unit,
        origin,
        version,
        channel,
        flags,
        dlc,
    };
    write(c, ids, stamps, data, bytes, out)
}

// The same under the second header, whose status and original time stamp are one for all.
#[unsafe(no_mangle)]
pub extern "C" fn mshelovat_tray_second(
    unit: u32,
    status: u8,
    version: u16,
    original: u64,
    channel: u16,
    flags: u8,
    dlc: u8,
    ids: &[u32],
    stamps: &[u64],
    data: &[u8],
    bytes: &mut [u8],
    out: &mut [u64],
) -> u32
    ensures { TrayFilled (tray_of (under_second unit status version original channel flags dlc)
        ids.now stamps.now «data».now bytes.old)
        result bytes.old bytes.new out.old out.new }
{
    let origin = Origin::Second { status, original };
    let c = Common {
        unit,
        origin,
        version,
        channel,
        flags,
        dlc,
    };
    write(c, ids, stamps, data, bytes, out)
}
