// The log and the slips that the examples begin with.
ghost use Rattle.std.specs.Prelude.{◌≡◌, length};

use headers::{Header, Origin};

// A header in nanoseconds.
fn header(origin: Origin) -> Header {
    Header {
        unit: 2,
        origin,
        version: 0,
        stamp: 1000000,
    }
}

// The first header.
pub fn first() -> Header {
    header(Origin::First { client: 0 })
}

fn put_overload(header: Header, out: &mut [u8]) {
    let _ = can_records::write_overload(can::Overload { header, channel: 1 }, out);
}

// One overload, M2.
pub fn overload() -> [u8; 36]
    ensures { 36 ≡ length result }
{
    let mut log = [0u8; 36];
    put_overload(first(), &mut log);
    log
}

// Two overloads, M2 M2.
pub fn overloads() -> [u8; 72]
    ensures { 72 ≡ length result }
{
    let one = overload();
    let mut log = [0u8; 72];
    fields::put_bytes(&mut log, 0, &one);
    fields::put_bytes(&mut log, 36, &one);
    log
}

// An overload under the second header: status 1, original time stamp 5.
pub fn second_overload() -> [u8; 44]
    ensures { 44 ≡ length result }
{
    let mut log = [0u8; 44];
    put_overload(
        header(Origin::Second {
            status: 1,
            original: 5,
        }),
        &mut log,
    );
    log
}

// An overload under each header.
pub fn two_headers() -> [u8; 80]
    ensures { 80 ≡ length result }
{
    let one = overload();
    let two = second_overload();
    let mut log = [0u8; 80];
    fields::put_bytes(&mut log, 0, &one);
    fields::put_bytes(&mut log, 36, &two);
    log
}

// Desk 1 with both overloads, M11.
pub fn both() -> [u8; 30]
    ensures { 30 ≡ length result }
{
    [
        0, 0, 0, 26, 1, 1, 0, 0, 0, 0, 0, 0, 0, 36, 0, 0, 0, 3, 0, 0, 0, 36, 0, 0, 0, 36, 0, 0, 0,
        3,
    ]
}

// Desk 1 with the first overload, desk 2 with the second.
pub fn shared() -> [u8; 36]
    ensures { 36 ≡ length result }
{
    [
        0, 0, 0, 14, 1, 1, 0, 0, 0, 0, 0, 0, 0, 36, 0, 0, 0, 3, 0, 0, 0, 14, 1, 2, 0, 0, 0, 36, 0,
        0, 0, 36, 0, 0, 0, 3,
    ]
}

// Eight desks with nothing, and a byte more.
pub fn nine() -> [u8; 49]
    ensures { 49 ≡ length result }
{
    [
        0, 0, 0, 2, 1, 1, 0, 0, 0, 2, 1, 2, 0, 0, 0, 2, 1, 3, 0, 0, 0, 2, 1, 4, 0, 0, 0, 2, 1, 5,
        0, 0, 0, 2, 1, 6, 0, 0, 0, 2, 1, 7, 0, 0, 0, 2, 1, 8, 0,
    ]
}
