// The LIN message, type 57.
#![tactic(auto, using(crate::proofs::SizeLaws::message_length, crate::proofs::TailLaws::tail_short), unfolding(crate::specs::Fields::message_of, headers::specs::HeadTests::first))]

ghost use Rattle.std.specs.Prelude.{true, refl, ◌+◌, ◌≤◌, length};
ghost use Rattle.fields.specs.Written.{Wrote};
ghost use Rattle.fields.specs.Slots.{bytes_of};
ghost use Rattle.headers.specs.declared.kind.Kind.TheVariants as code;
ghost use Rattle.lin.specs.Tables.{synch_slots, descriptor_slots, status_slots, machine_slots, message_slots};
ghost use Rattle.lin.specs.Fields.{message_of, message_format};

use crate::bus::put_bus;
use crate::tail::{Tail, get_tail, put_tail, tail_length, tail_ok};
use headers::{Fault, Header, Kind, Record, Whole};

#[derive(Clone, Copy)]
pub struct Message {
    pub header: Header,
    pub start: u64,
    pub baud: u32,
    pub channel: u16,
    pub breaking: u64,
    pub delimiter: u64,
    pub supplier: u16,
    pub message: u16,
    pub nad: u8,
    pub id: u8,
    pub dlc: u8,
    pub model: u8,
    pub stamps: [u64; 9],
    pub bytes: [u8; 8],
    pub checksum: u16,
    pub direction: u8,
    pub simulated: u8,
    pub triggered: u8,
    pub index: u8,
    pub associated: u8,
    pub machine: u8,
    pub state: u8,
    pub tail: Tail,
}

impl Record for Message {
    ghost LENGTH = { 132 };

    ghost of = { message_of };

    ghost gaps = { message_format.gaps };

    ghost rules = { message_format.rules };

    ghost short = { refl };

    const LENGTH: usize = 132;

    fn get(h: Header, b: &[u8]) -> Self {
        Self {
            header: h,
            start: fields::get64(b, 0),
            baud: fields::get32(b, 8),
            channel: fields::get16(b, 12),
            breaking: fields::get64(b, 16),
            delimiter: fields::get64(b, 24),
            supplier: fields::get16(b, 32),
            message: fields::get16(b, 34),
            nad: fields::get8(b, 36),
            id: fields::get8(b, 37),
            dlc: fields::get8(b, 38),
            model: fields::get8(b, 39),
            stamps: fields::get_numbers(b, 40),
            bytes: fields::get_bytes(b, 112),
            checksum: fields::get16(b, 120),
            direction: fields::get8(b, 122),
            simulated: fields::get8(b, 123),
            triggered: fields::get8(b, 124),
            index: fields::get8(b, 125),
            associated: fields::get8(b, 126),
            machine: fields::get8(b, 127),
            state: fields::get8(b, 128),
            tail: get_tail(b),
        }
    }

    fn check(b: &[u8]) -> Result<(), Fault> {
        if !fields::all_zero(b, 14, 2) || !fields::all_zero(b, 129, 3) {
            return Err(Fault::Reserved);
        }
        if !tail_ok(get_tail(b)) {
            return Err(Fault::Content);
        }
        Ok(())
    }

    fn wrong_byte(o: &[u8], head: usize) -> usize {
        let late = fields::wrong_byte(o, head + 129, 3, 0);
        fields::wrong_byte(o, head + 14, 2, late)
    }

    fn wrong_field(b: &[u8]) -> usize {
        fields::wrong_field(tail_ok(get_tail(b)), 136, 0)
    }
}

impl Whole for Message {
    ghost KIND = { code.LinMessage };

    ghost header = { message_format.header };

    ghost body = { bytes_of message_slots };

    ghost content = { message_format.content };

    ghost writable = { message_format.content };

    ghost may_write = { λ r e. e };

    const KIND: Kind = Kind::LinMessage;

    fn header(self) -> Header {
        self.header
    }

    fn length(self) -> usize {
        Self::LENGTH + tail_length(self.tail)
    }

    fn content(self) -> bool {
        tail_ok(self.tail)
    }

    fn put(self, out: &mut [u8], at: usize) {
        put_synch(out, at, self);
        put_descriptor(out, at + 32, self);
        fields::put_numbers(out, at + 40, self.stamps);
        fields::put_bytes(out, at + 112, &self.bytes);
        put_status(out, at + 120, self);
        put_machines(out, at + 127, self);
        put_tail(out, at + 132, self.tail);
    }
}

fn put_synch(out: &mut [u8], at: usize, r: Message)
    requires { at + 32 ≤ length out.old }
    ensures { Wrote at (bytes_of synch_slots r) out.old out.new }
{
    put_bus(out, at, r.start, r.baud, r.channel);
    fields::put64(out, at + 16, r.breaking);
    fields::put64(out, at + 24, r.delimiter);
}

fn put_descriptor(out: &mut [u8], at: usize, r: Message)
    requires { at + 8 ≤ length out.old }
    ensures { Wrote at (bytes_of descriptor_slots r) out.old out.new }
{
    fields::put16(out, at, r.supplier);
    fields::put16(out, at + 2, r.message);
    fields::put8(out, at + 4, r.nad);
    fields::put8(out, at + 5, r.id);
    fields::put8(out, at + 6, r.dlc);
    fields::put8(out, at + 7, r.model);
}

fn put_status(out: &mut [u8], at: usize, r: Message)
    requires { at + 7 ≤ length out.old }
    ensures { Wrote at (bytes_of status_slots r) out.old out.new }
{
    fields::put16(out, at, r.checksum);
    fields::put8(out, at + 2, r.direction);
    fields::put8(out, at + 3, r.simulated);
    fields::put8(out, at + 4, r.triggered);
    fields::put8(out, at + 5, r.index);
    fields::put8(out, at + 6, r.associated);
}

fn put_machines(out: &mut [u8], at: usize, r: Message)
    requires { at + 5 ≤ length out.old }
    ensures { Wrote at (bytes_of machine_slots r) out.old out.new }
{
    fields::put8(out, at, r.machine);
    fields::put8(out, at + 1, r.state);
    fields::put_zeros(out, at + 2, 3);
}
