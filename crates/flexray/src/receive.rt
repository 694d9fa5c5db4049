// FlexRay receive, type 50. A body is what stands behind the header: its offsets count from the header's end.
#![tactic(auto, using(crate::proofs::Laws::receive_length), unfolding(crate::specs::Fields::receive_of, crate::specs::Fields::counts_ok, headers::specs::HeadTests::first))]

ghost use Rattle.std.specs.Prelude.{◌≡◌, true, refl, ◌+◌, ◌≤◌, length};
ghost use Rattle.fields.specs.Written.{Wrote};
ghost use Rattle.fields.specs.Slots.{bytes_of};
ghost use Rattle.headers.specs.declared.kind.Kind.TheVariants as code;
ghost use Rattle.flexray.specs.Tables.{origin_slots, slot_slots, controller_slots, receive_slots};
ghost use Rattle.flexray.specs.Fields.{receive_of, counts_ok, receive_format};

use headers::{Fault, Header, Kind, Record, Whole};

#[derive(Clone, Copy)]
pub struct Receive {
    pub header: Header,
    pub channel: u16,
    pub version: u16,
    pub mask: u16,
    pub direction: u8,
    pub client: u32,
    pub cluster: u32,
    pub id: u16,
    pub crca: u16,
    pub crcb: u16,
    // byte count: the payload's length
    pub total: u16,
    // data count: how many bytes of the payload stand in `bytes`
    pub stored: u16,
    pub cycle: u8,
    pub tag: u32,
    pub state: u32,
    pub flags: u32,
    // kept as found past the data count
    pub bytes: [u8; 254],
}

// Test 9, for reader and writer: whether the data count is above neither 254 nor the byte count.
fn counts_ok(total: u16, stored: u16) -> bool
    ensures { result ≡ counts_ok total stored }
{
    stored <= 254 && stored <= total
}

impl Record for Receive {
    ghost LENGTH = { 298 };

    ghost of = { receive_of };

    ghost gaps = { receive_format.gaps };

    ghost rules = { receive_format.rules };

    ghost short = { refl };

    const LENGTH: usize = 298;

    fn get(h: Header, b: &[u8]) -> Self {
        Self {
            header: h,
            channel: fields::get16(b, 0),
            version: fields::get16(b, 2),
            mask: fields::get16(b, 4),
            direction: fields::get8(b, 6),
            client: fields::get32(b, 8),
            cluster: fields::get32(b, 12),
            id: fields::get16(b, 16),
            crca: fields::get16(b, 18),
            crcb: fields::get16(b, 20),
            total: fields::get16(b, 22),
            stored: fields::get16(b, 24),
            cycle: fields::get8(b, 26),
            tag: fields::get32(b, 28),
            state: fields::get32(b, 32),
            flags: fields::get32(b, 36),
            bytes: fields::get_bytes(b, 44),
        }
    }

    fn check(b: &[u8]) -> Result<(), Fault> {
        if !fields::all_zero(b, 7, 1)
            || !fields::all_zero(b, 27, 1)
            || !fields::all_zero(b, 40, 4)
        {
            return Err(Fault::Reserved);
        }
        if !counts_ok(fields::get16(b, 22), fields::get16(b, 24)) {
            return Err(Fault::Content);
        }
        Ok(())
    }

    fn wrong_byte(o: &[u8], head: usize) -> usize {
        let reserved = fields::wrong_byte(o, head + 40, 4, 0);
        let after_cycle = fields::wrong_byte(o, head + 27, 1, reserved);
        fields::wrong_byte(o, head + 7, 1, after_cycle)
    }

    fn wrong_field(b: &[u8]) -> usize {
        fields::wrong_field(counts_ok(fields::get16(b, 22), fields::get16(b, 24)), 24, 0)
    }
}

impl Whole for Receive {
    ghost KIND = { code.FlexRayReceive };

    ghost header = { receive_format.header };

    ghost body = { bytes_of receive_slots };

    ghost content = { receive_format.content };

    ghost writable = { λ r. true };

    ghost may_write = { λ r _. refl };

    const KIND: Kind = Kind::FlexRayReceive;

    fn header(self) -> Header {
        self.header
    }

    fn length(self) -> usize {
        Self::LENGTH
    }

    fn content(self) -> bool {
        counts_ok(self.total, self.stored)
    }

    fn put(self, out: &mut [u8], at: usize) {
        put_origin(out, at, self);
        put_slot(out, at, self);
        put_controller(out, at, self);
        fields::put_bytes(out, at + 44, &self.bytes);
    }
}

// The parts before the data, each at its place in a body that begins at `at`.
fn put_origin(out: &mut [u8], at: usize, r: Receive)
    requires { at + 298 ≤ length out.old }
    ensures { Wrote at (bytes_of origin_slots r) out.old out.new }
{
    fields::put16(out, at, r.channel);
    fields::put16(out, at + 2, r.version);
    fields::put16(out, at + 4, r.mask);
    fields::put8(out, at + 6, r.direction);
    fields::put_zeros(out, at + 7, 1);
    fields::put32(out, at + 8, r.client);
    fields::put32(out, at + 12, r.cluster);
}

fn put_slot(out: &mut [u8], at: usize, r: Receive)
    requires { at + 298 ≤ length out.old }
    ensures { Wrote (at + 16) (bytes_of slot_slots r) out.old out.new }
{
    fields::put16(out, at + 16, r.id);
    fields::put16(out, at + 18, r.crca);
    fields::put16(out, at + 20, r.crcb);
    fields::put16(out, at + 22, r.total);
    fields::put16(out, at + 24, r.stored);
    fields::put8(out, at + 26, r.cycle);
    fields::put_zeros(out, at + 27, 1);
}

fn put_controller(out: &mut [u8], at: usize, r: Receive)
    requires { at + 298 ≤ length out.old }
    ensures { Wrote (at + 28) (bytes_of controller_slots r) out.old out.new }
{
    fields::put32(out, at + 28, r.tag);
    fields::put32(out, at + 32, r.state);
    fields::put32(out, at + 36, r.flags);
    fields::put_zeros(out, at + 40, 4);
}
