// The CAN message, type 1.
#![tactic(auto, using(crate::proofs::Laws::message_length), unfolding(crate::specs::Fields::message_of, headers::specs::HeadTests::first))]

ghost use Rattle.std.specs.Prelude.{true, refl};
ghost use Rattle.fields.specs.Slots.{bytes_of};
ghost use Rattle.headers.specs.declared.kind.Kind.TheVariants as code;
ghost use Rattle.can.specs.Tables.{message_slots};
ghost use Rattle.can.specs.Fields.{message_of, message_format};

use crate::front::{Front, get_front, put_front};
use headers::{Fault, Header, Kind, Record, Whole};

#[derive(Clone, Copy)]
pub struct Message {
    pub header: Header,
    pub channel: u16,
    pub flags: u8,
    pub dlc: u8,
    pub id: u32,
    pub bytes: [u8; 8],
}

impl Record for Message {
    ghost LENGTH = { 16 };

    ghost of = { message_of };

    ghost gaps = { message_format.gaps };

    ghost rules = { message_format.rules };

    ghost short = { refl };

    const LENGTH: usize = 16;

    fn get(h: Header, b: &[u8]) -> Self {
        let f = get_front(b);
        Self {
            header: h,
            channel: f.channel,
            flags: f.flags,
            dlc: f.dlc,
            id: f.id,
            bytes: fields::get_bytes(b, 8),
        }
    }

    fn check(_b: &[u8]) -> Result<(), Fault> {
        Ok(())
    }

    fn wrong_byte(_o: &[u8], _head: usize) -> usize {
        0
    }

    fn wrong_field(_b: &[u8]) -> usize {
        0
    }
}

impl Whole for Message {
    ghost KIND = { code.CanMessage };

    ghost header = { message_format.header };

    ghost body = { bytes_of message_slots };

    ghost content = { message_format.content };

    ghost writable = { λ r. true };

    ghost may_write = { λ r _. refl };

    const KIND: Kind = Kind::CanMessage;

    fn header(self) -> Header {
        self.header
    }

    fn length(self) -> usize {
        Self::LENGTH
    }

    fn content(self) -> bool {
        true
    }

    fn put(self, out: &mut [u8], at: usize) {
        let front = Front {
            channel: self.channel,
            flags: self.flags,
            dlc: self.dlc,
            id: self.id,
        };
        put_front(out, at, front);
        fields::put_bytes(out, at + 8, &self.bytes);
    }
}
