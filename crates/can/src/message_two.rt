// The CAN message 2, type 86: a CAN message and how long it was on the bus.
#![tactic(auto, using(crate::proofs::Laws::message_length, crate::proofs::Laws::message_two_length), unfolding(crate::specs::Fields::message_two_of, headers::specs::HeadTests::first))]

ghost use Rattle.std.specs.Prelude.{true, refl};
ghost use Rattle.fields.specs.Slots.{bytes_of};
ghost use Rattle.headers.specs.declared.kind.Kind.TheVariants as code;
ghost use Rattle.can.specs.Tables.{message_two_slots};
ghost use Rattle.can.specs.Fields.{message_two_of, message_two_format};

use crate::message::Message;
use headers::{Fault, Header, Kind, Record, Whole};

#[derive(Clone, Copy)]
pub struct MessageTwo {
    pub message: Message,
    // in nanoseconds
    pub frame_length: u32,
    pub bit_count: u8,
}

impl Record for MessageTwo {
    ghost LENGTH = { 24 };

    ghost of = { message_two_of };

    ghost gaps = { message_two_format.gaps };

    ghost rules = { message_two_format.rules };

    ghost short = { refl };

    const LENGTH: usize = 24;

    fn get(h: Header, b: &[u8]) -> Self {
        Self {
            message: Message::get(h, b),
            frame_length: fields::get32(b, 16),
            bit_count: fields::get8(b, 20),
        }
    }

    fn check(b: &[u8]) -> Result<(), Fault> {
        if !fields::all_zero(b, 21, 3) {
            return Err(Fault::Reserved);
        }
        Ok(())
    }

    fn wrong_byte(o: &[u8], head: usize) -> usize {
        fields::wrong_byte(o, head + 21, 3, 0)
    }

    fn wrong_field(_b: &[u8]) -> usize {
        0
    }
}

impl Whole for MessageTwo {
    ghost KIND = { code.CanMessageTwo };

    ghost header = { message_two_format.header };

    ghost body = { bytes_of message_two_slots };

    ghost content = { message_two_format.content };

    ghost writable = { λ r. true };

    ghost may_write = { λ r _. refl };

    const KIND: Kind = Kind::CanMessageTwo;

    fn header(self) -> Header {
        self.message.header
    }

    fn length(self) -> usize {
        Self::LENGTH
    }

    fn content(self) -> bool {
        true
    }

    fn put(self, out: &mut [u8], at: usize) {
        self.message.put(out, at);
        fields::put32(out, at + 16, self.frame_length);
        fields::put8(out, at + 20, self.bit_count);
        fields::put_zeros(out, at + 21, 3);
    }
}
