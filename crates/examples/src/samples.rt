// Objects that the examples begin with, and records.
ghost use Rattle.std.specs.Prelude.{◌≡◌, ◌≤◌, ◌<◌, length};

use headers::{Header, Origin, Refusal};

// Writes an overload of channel 1 to the front of `out`.
pub fn put_overload(header: Header, out: &mut [u8]) -> Result<usize, Refusal> {
    can_records::write_overload(can::Overload { header, channel: 1 }, out)
}

// The overload of document 01's M2.
pub fn overload() -> [u8; 36]
    ensures { 36 ≡ length result }
{
    let mut log = [0u8; 36];
    let _ = put_overload(header(2), &mut log);
    log
}

// The overload of W-202: status 1, 1,000,000 ns, original time stamp 5, channel 1.
pub fn second_overload() -> [u8; 44]
    ensures { 44 ≡ length result }
{
    let mut log = [0u8; 44];
    let _ = put_overload(second(), &mut log);
    log
}

// M2 twice, one byte set to another.
pub fn twice_with(at: usize, byte: u8) -> [u8; 72]
    requires { at < 72 }
    ensures { 72 ≡ length result }
{
    let mut log = [0u8; 72];
    let overload = overload();
    fields::put_bytes(&mut log, 0, &overload);
    fields::put_bytes(&mut log, 36, &overload);
    fields::put8(&mut log, at, byte);
    log
}

// A frame of 1,612 bytes, all zero: the whole object has 1,676, and four bytes of room are left.
pub fn frame() -> [u8; 1680]
    ensures { 1680 ≡ length result }
{
    let mut log = room();
    let _ = put_frame(&[0u8; 1612], &mut log);
    log
}

// Writes a frame of these bytes to the front of `out`.
pub fn put_frame(bytes: &[u8], out: &mut [u8]) -> Result<usize, Refusal> {
    let mut frame = ethernet_records::frame_in(&[0u8; 64]);
    frame.header = header(2);
    ethernet_records::write_frame(frame, bytes, out)
}

// A frame of these bytes, and an overload that begins at a place behind it.
pub fn behind(bytes: &[u8], at: usize) -> [u8; 1680]
    requires { at ≤ 1644 }
    ensures { 1680 ≡ length result }
{
    let mut log = room();
    let _ = put_frame(bytes, &mut log);
    let overload = overload();
    fields::put_bytes(&mut log, at, &overload);
    log
}

// A LIN message with an exact baud rate, zeros else.
pub fn message() -> lin::Message {
    let header = header(2);
    let tail = lin::Tail::Rates {
        response: 0,
        exact: 0.0,
        header_stop: 0,
        response_stop: 0,
    };
    lin::Message {
        header,
        start: 0,
        baud: 0,
        channel: 0,
        breaking: 0,
        delimiter: 0,
        supplier: 0,
        message: 0,
        nad: 0,
        id: 0,
        dlc: 0,
        model: 0,
        stamps: [0; 9],
        bytes: [0; 8],
        checksum: 0,
        direction: 0,
        simulated: 0,
        triggered: 0,
        index: 0,
        associated: 0,
        machine: 0,
        state: 0,
        tail,
    }
}

// A foreign object of 17 bytes, type 9999, and three zero bytes, of which the first is its padding.
pub fn foreigner() -> [u8; 20]
    ensures { 20 ≡ length result }
{
    let mut log = [0u8; 20];
    fields::put32(&mut log, 0, Header::SIGNATURE);
    fields::put16(&mut log, 4, 16);
    fields::put32(&mut log, 8, 17);
    fields::put32(&mut log, 12, 9999);
    log
}

// Four objects of this type in python-can's form, end to end: 104 to 107 bytes, and none to three zero bytes behind.
pub fn python_can(kind: u32) -> [u8; 428]
    ensures { 428 ≡ length result }
{
    let mut log = [7u8; 428];
    fields::put_bytes(&mut log, 0, &head(104, kind));
    fields::put_bytes(&mut log, 104, &head(105, kind));
    fields::put_zeros(&mut log, 209, 1);
    fields::put_bytes(&mut log, 210, &head(106, kind));
    fields::put_zeros(&mut log, 316, 2);
    fields::put_bytes(&mut log, 318, &head(107, kind));
    fields::put_zeros(&mut log, 425, 3);
    log
}

// What python-can begins an object with: header size 32, version 1, and this size and type.
fn head(size: u32, kind: u32) -> [u8; 16]
    ensures { 16 ≡ length result }
{
    let mut head = [0u8; 16];
    fields::put32(&mut head, 0, Header::SIGNATURE);
    fields::put16(&mut head, 4, 32);
    fields::put16(&mut head, 6, 1);
    fields::put32(&mut head, 8, size);
    fields::put32(&mut head, 12, kind);
    head
}

// Zeros: room for the object of the longest frame, and four bytes more.
pub fn room() -> [u8; 1680]
    ensures { 1680 ≡ length result }
{
    [0; 1680]
}

// A first header with nanoseconds or another unit.
pub fn header(unit: u32) -> Header {
    Header {
        unit,
        origin: Origin::First { client: 0 },
        version: 0,
        stamp: 1000000,
    }
}

// A second header in nanoseconds: status 1, original time stamp 5.
pub fn second() -> Header {
    Header {
        unit: 2,
        origin: Origin::Second {
            status: 1,
            original: 5,
        },
        version: 0,
        stamp: 1000000,
    }
}

// A FlexRay receive with its data count and its byte count.
pub fn receive(unit: u32, stored: u16, total: u16) -> flexray::Receive {
    let bytes = [7u8; 254];
    flexray::Receive {
        header: header(unit),
        channel: 1,
        version: 1,
        mask: 1,
        direction: 0,
        client: 0,
        cluster: 0,
        id: 5,
        crca: 0,
        crcb: 0,
        total,
        stored,
        cycle: 0,
        tag: 0,
        state: 0,
        flags: 0,
        bytes,
    }
}
