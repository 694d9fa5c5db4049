// The Ethernet frame, type 120, and the forwarded frame, type 121.
#![tactic(auto, using(crate::proofs::Laws::frame_length), unfolding(crate::specs::Fields::frame_of, headers::specs::HeadTests::first))]

ghost use Rattle.std.specs.Prelude.{refl, ◌≡◌, ◌≤◌, length, drop};
ghost use Rattle.fields.specs.Slots.{bytes_of};
ghost use Rattle.ethernet.specs.Fields.{structure_length, frame_of, frame_format};
ghost use Rattle.ethernet.specs.Tables.{frame_slots};

use crate::event::{Lent, length_fault, put_event, wrong_length};
use headers::{Fault, Header, Record};

// Structure length and frame length are not kept: they follow from the frame's bytes, which are lent beside the record.
#[derive(Clone, Copy)]
pub struct Frame {
    pub header: Header,
    pub flags: u16,
    pub channel: u16,
    pub hardware: u16,
    pub duration: u64,
    pub checksum: u32,
    pub direction: u16,
    pub handle: u32,
}

// The least length of a body is the structure length: there the frame's bytes begin.
impl Record for Frame {
    ghost LENGTH = { structure_length };

    ghost of = { frame_of };

    ghost gaps = { frame_format.gaps };

    ghost rules = { frame_format.rules };

    ghost short = { refl };

    const LENGTH: usize = 32;

    fn get(h: Header, b: &[u8]) -> Self {
        Self {
            header: h,
            flags: fields::get16(b, 2),
            channel: fields::get16(b, 4),
            hardware: fields::get16(b, 6),
            duration: fields::get64(b, 8),
            checksum: fields::get32(b, 16),
            direction: fields::get16(b, 20),
            handle: fields::get32(b, 24),
        }
    }

    fn check(b: &[u8]) -> Result<(), Fault> {
        if !fields::all_zero(b, 28, 4) {
            return Err(Fault::Reserved);
        }
        length_fault(b)
    }

    fn wrong_byte(o: &[u8], head: usize) -> usize {
        fields::wrong_byte(o, head + 28, 4, 0)
    }

    fn wrong_field(b: &[u8]) -> usize {
        wrong_length(b)
    }
}

impl Lent for Frame {
    ghost header = { λ r. r.header };

    ghost body = { λ r b. bytes_of frame_slots (record { value = r; bytes = b }) };

    fn header(self) -> Header {
        self.header
    }

    fn length(self, lent: &[u8]) -> usize {
        Self::LENGTH + lent.len()
    }

    fn put(self, out: &mut [u8], at: usize, lent: &[u8]) {
        put_event(out, at, self, 0, lent);
    }
}

// The frame's bytes, a part of the body of a frame or an error.
pub fn frame_view(b: &[u8]) -> &[u8]
    requires { structure_length ≤ length b.now }
    ensures { result.now ≡ drop structure_length b.now }
{
    &b[Frame::LENGTH..]
}
