// The CAN FD message, type 100.
#![tactic(auto, using(crate::proofs::Laws::fd_message_length), unfolding(crate::specs::Fields::fd_message_of, headers::specs::HeadTests::first))]

ghost use Rattle.std.specs.Prelude.{◌≡◌, true, refl, ◌+◌, ◌≤◌, length, leb};
ghost use Rattle.fields.specs.Written.{Wrote};
ghost use Rattle.fields.specs.Slots.{bytes_of};
ghost use Rattle.headers.specs.declared.kind.Kind.TheVariants as code;
ghost use Rattle.can.specs.Tables.{timing_slots, fd_message_slots};
ghost use Rattle.can.specs.Fields.{fd_message_of, most_valid, fd_message_format};

use crate::front::{Front, get_front, put_front};
use headers::{Fault, Header, Kind, Record, Whole};

#[derive(Clone, Copy)]
pub struct FdMessage {
    pub header: Header,
    pub channel: u16,
    pub flags: u8,
    pub dlc: u8,
    pub id: u32,
    pub frame_length: u32,
    // of the arbitration phase
    pub bit_count: u8,
    pub fd_flags: u8,
    // how many of `bytes` are valid: nothing ties it to the DLC
    pub valid_bytes: u8,
    // kept as found past the valid ones
    pub bytes: [u8; 64],
}

// Test 9, for reader and writer: whether the valid bytes are not above 64.
pub fn valid_ok(valid: u8) -> bool
    ensures { result ≡ leb valid most_valid }
{
    valid <= 64
}

impl Record for FdMessage {
    ghost LENGTH = { 88 };

    ghost of = { fd_message_of };

    ghost gaps = { fd_message_format.gaps };

    ghost rules = { fd_message_format.rules };

    ghost short = { refl };

    const LENGTH: usize = 88;

    fn get(h: Header, b: &[u8]) -> Self {
        let f = get_front(b);
        Self {
            header: h,
            channel: f.channel,
            flags: f.flags,
            dlc: f.dlc,
            id: f.id,
            frame_length: fields::get32(b, 8),
            bit_count: fields::get8(b, 12),
            fd_flags: fields::get8(b, 13),
            valid_bytes: fields::get8(b, 14),
            bytes: fields::get_bytes(b, 20),
        }
    }

    fn check(b: &[u8]) -> Result<(), Fault> {
        if !fields::all_zero(b, 15, 5) || !fields::all_zero(b, 84, 4) {
            return Err(Fault::Reserved);
        }
        if !valid_ok(fields::get8(b, 14)) {
            return Err(Fault::Content);
        }
        Ok(())
    }

    fn wrong_byte(o: &[u8], head: usize) -> usize {
        let after_data = fields::wrong_byte(o, head + 84, 4, 0);
        fields::wrong_byte(o, head + 15, 5, after_data)
    }

    fn wrong_field(b: &[u8]) -> usize {
        fields::wrong_field(valid_ok(fields::get8(b, 14)), 14, 0)
    }
}

impl Whole for FdMessage {
    ghost KIND = { code.CanFdMessage };

    ghost header = { fd_message_format.header };

    ghost body = { bytes_of fd_message_slots };

    ghost content = { fd_message_format.content };

    ghost writable = { λ r. true };

    ghost may_write = { λ r _. refl };

    const KIND: Kind = Kind::CanFdMessage;

    fn header(self) -> Header {
        self.header
    }

    fn length(self) -> usize {
        Self::LENGTH
    }

    fn content(self) -> bool {
        valid_ok(self.valid_bytes)
    }

    fn put(self, out: &mut [u8], at: usize) {
        let front = Front {
            channel: self.channel,
            flags: self.flags,
            dlc: self.dlc,
            id: self.id,
        };
        put_front(out, at, front);
        put_timing(out, at, self);
        fields::put_bytes(out, at + 20, &self.bytes);
        fields::put_zeros(out, at + 84, 4);
    }
}

// What stands between the front and the data bytes, in a body that begins at `at`.
fn put_timing(out: &mut [u8], at: usize, r: FdMessage)
    requires { at + 88 ≤ length out.old }
    ensures { Wrote (at + 8) (bytes_of timing_slots r) out.old out.new }
{
    fields::put32(out, at + 8, r.frame_length);
    fields::put8(out, at + 12, r.bit_count);
    fields::put8(out, at + 13, r.fd_flags);
    fields::put8(out, at + 14, r.valid_bytes);
    fields::put_zeros(out, at + 15, 5);
}
