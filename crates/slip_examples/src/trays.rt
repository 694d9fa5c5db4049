// Examples of W-207: trays of CAN messages. One has 48 bytes under the first header, 56 under the second.
use crate::tell;
use headers::Origin;
use std::io;
use tray::{Common, Trayed};

// The ids of two messages.
const TWO: [u32; 2] = [256, 257];

const FIRST: Origin = Origin::First { client: 0 };

const SECOND: Origin = Origin::Second {
    status: 1,
    original: 5,
};

fn common(unit: u32, origin: Origin) -> Common {
    Common {
        unit,
        origin,
        version: 0,
        channel: 1,
        flags: 0,
        dlc: 8,
    }
}

// A tray of three messages to the front of `out`.
fn three(c: Common, out: &mut [u8]) -> Trayed {
    let ids = [256u32, 257, 2147483905];
    let stamps = [1250000u64, 3750000, 7500000];
    let bytes = [7u8; 24];
    tray::write_messages(c, &ids, &stamps, &bytes, out)
}

// As many as there is room for: those before the refused one stand.
pub fn rooms(rt: &impl Print) -> io::Result<()> {
    let mut whole = [0u8; 144];
    let all = three(common(2, FIRST), &mut whole);
    tell::tray(rt, b"a tray of three messages into 144 bytes: ", all)?;
    let mut short = [0u8; 143];
    let two = three(common(2, FIRST), &mut short);
    tell::tray(rt, b"into 143 bytes: ", two)
}

// The same under the second header.
pub fn second_rooms(rt: &impl Print) -> io::Result<()> {
    let mut whole = [0u8; 168];
    let all = three(common(2, SECOND), &mut whole);
    tell::tray(rt, b"under the second header into 168 bytes: ", all)?;
    let mut short = [0u8; 167];
    let two = three(common(2, SECOND), &mut short);
    tell::tray(rt, b"into 167 bytes: ", two)
}

// A tray of these ids, with this unit, these time stamps and data bytes, into one byte.
fn tray_of(ids: &[u32], unit: u32, stamps: &[u64], bytes: &[u8]) -> Trayed {
    tray::write_messages(common(unit, FIRST), ids, stamps, bytes, &mut [0u8; 1])
}

// Slices that don't go together: 31 before all else.
pub fn apart(rt: &impl Print) -> io::Result<()> {
    let stamps = [1250000u64, 3750000];
    let bytes = [7u8; 24];
    let fewer = tray_of(&TWO, 0, &stamps[..1], &bytes[..16]);
    tell::tray(
        rt,
        b"two ids, one time stamp, unit 0, one byte of room: ",
        fewer,
    )?;
    let fewer = tray_of(&TWO, 0, &stamps, &bytes[..15]);
    tell::tray(rt, b"two time stamps, 15 data bytes: ", fewer)?;
    let more = tray_of(&TWO, 0, &stamps, &bytes);
    tell::tray(rt, b"24 data bytes: ", more)
}

// 7, then 10.
pub fn orders(rt: &impl Print) -> io::Result<()> {
    let stamps = [1250000u64, 3750000];
    let bytes = [7u8; 16];
    let unit = tray_of(&TWO, 0, &stamps, &bytes);
    tell::tray(rt, b"16 data bytes: ", unit)?;
    let room = tray_of(&TWO, 2, &stamps, &bytes);
    tell::tray(rt, b"unit 2: ", room)
}

// A tray of none.
pub fn nothing(rt: &impl Print) -> io::Result<()> {
    let nothing = tray_of(&[], 0, &[], &[]);
    tell::tray(rt, b"a tray of none, unit 0: ", nothing)?;
    let one = tray_of(&[], 0, &[1250000], &[]);
    tell::tray(rt, b"with a time stamp: ", one)
}
