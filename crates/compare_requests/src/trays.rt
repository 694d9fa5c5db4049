// W-207, question 7: a tray. The first part has what is common, how many ids and time stamps there are, and eight of
// each; the second part is the data.
ghost use Rattle.std.specs.Prelude.{◌≤◌, ◌≡◌, length};

use crate::stream::{LIMIT, put_all};
use headers::Origin;
use std::array;
use tray::{Common, Trayed};

fn origin_of(first: &[u8]) -> Origin
    requires { 120 ≡ length first.now }
{
    if fields::get8(first, 0) == 2 {
        return Origin::Second {
            status: fields::get8(first, 8),
            original: fields::get64(first, 16),
        };
    }
    Origin::First {
        client: fields::get16(first, 8),
    }
}

fn common_of(first: &[u8]) -> Common
    requires { 120 ≡ length first.now }
{
    Common {
        unit: fields::get32(first, 4),
        origin: origin_of(first),
        version: fields::get16(first, 10),
        channel: fields::get16(first, 12),
        flags: fields::get8(first, 1),
        dlc: fields::get8(first, 2),
    }
}

fn ids_of(first: &[u8]) -> [u32; 8]
    requires { 120 ≡ length first.now }
    ensures { 8 ≡ length result }
{
    array::from_fn(|i| fields::get32(first, 24 + 4 * i))
}

fn stamps_of(first: &[u8]) -> [u64; 8]
    requires { 120 ≡ length first.now }
    ensures { 8 ≡ length result }
{
    array::from_fn(|i| fields::get64(first, 56 + 8 * i))
}

fn told_of(t: Trayed) -> [u64; 5] {
    let written = t.written as u64;
    match t.answer {
        Ok(()) => [11, written, 0, 0, 0],
        Err(refusal) => [
            11,
            written,
            refusal.number() as u64,
            refusal.place() as u64,
            0,
        ],
    }
}

// Writes the tray of a first part and its data to `out`; the reply's word and numbers, none where it is no such tray.
fn fill(first: &[u8], data: &[u8], out: &mut [u8]) -> Option<[u64; 5]> {
    if first.len() != 120 {
        return None;
    }
    let ids = ids_of(first);
    let stamps = stamps_of(first);
    let ids = ids.get(..first[3] as usize)?;
    let stamps = stamps.get(..first[14] as usize)?;
    Some(told_of(tray::write_messages(common_of(first), ids, stamps, data, out)))
}

// Answers the tray of a case, whose second part begins at a place; none where it is none of ours or the reply was not
// written.
pub fn tell_tray<P: Print>(
    output: &P,
    room: usize,
    case: &[u8],
    part: usize,
    out: &mut [u8],
) -> Option<()>
    requires { (17 ≤ part) × (part ≤ length case.now) × (8209 ≡ length out.old) }
    ensures { 8209 ≡ length out.new }
{
    if LIMIT < room {
        return None;
    }
    let reply = fill(&case[17..part], &case[part..], &mut out[40..40 + room])?;
    put_all(out, 0, &reply);
    output.write_all(&out[..40 + room]).ok()
}
