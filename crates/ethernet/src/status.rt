// The Ethernet status, type 103.
#![tactic(auto, using(crate::proofs::Laws::status_length), unfolding(crate::specs::Fields::status_of, headers::specs::HeadTests::first))]

ghost use Rattle.std.specs.Prelude.{true, refl};
ghost use Rattle.fields.specs.Slots.{bytes_of};
ghost use Rattle.headers.specs.declared.kind.Kind.TheVariants as code;
ghost use Rattle.ethernet.specs.Tables.{status_slots};
ghost use Rattle.ethernet.specs.Fields.{status_of, status_format};

use headers::{Fault, Header, Kind, Record, Whole};

#[derive(Clone, Copy)]
pub struct Status {
    pub header: Header,
    pub channel: u16,
    pub flags: u16,
    pub link: u8,
    pub phy: u8,
    pub duplex: u8,
    pub mdi: u8,
    pub connector: u8,
    pub clock: u8,
    pub pairs: u8,
    pub hardware: u8,
    pub bitrate: u32,
}

impl Record for Status {
    ghost LENGTH = { 16 };

    ghost of = { status_of };

    ghost gaps = { status_format.gaps };

    ghost rules = { status_format.rules };

    ghost short = { refl };

    const LENGTH: usize = 16;

    fn get(h: Header, b: &[u8]) -> Self {
        Self {
            header: h,
            channel: fields::get16(b, 0),
            flags: fields::get16(b, 2),
            link: fields::get8(b, 4),
            phy: fields::get8(b, 5),
            duplex: fields::get8(b, 6),
            mdi: fields::get8(b, 7),
            connector: fields::get8(b, 8),
            clock: fields::get8(b, 9),
            pairs: fields::get8(b, 10),
            hardware: fields::get8(b, 11),
            bitrate: fields::get32(b, 12),
        }
    }

    fn check(_b: &[u8]) -> Result<(), Fault> {
        Ok(())
    }

    fn wrong_byte(_o: &[u8], _head: usize) -> usize {
        0
    }

    fn wrong_field(_b: &[u8]) -> usize {
        0
    }
}

impl Whole for Status {
    ghost KIND = { code.EthernetStatus };

    ghost header = { status_format.header };

    ghost body = { bytes_of status_slots };

    ghost content = { status_format.content };

    ghost writable = { λ r. true };

    ghost may_write = { λ r _. refl };

    const KIND: Kind = Kind::EthernetStatus;

    fn header(self) -> Header {
        self.header
    }

    fn length(self) -> usize {
        Self::LENGTH
    }

    fn content(self) -> bool {
        true
    }

    fn put(self, out: &mut [u8], at: usize) {
        fields::put16(out, at, self.channel);
        fields::put16(out, at + 2, self.flags);
        fields::put8(out, at + 4, self.link);
        fields::put8(out, at + 5, self.phy);
        fields::put8(out, at + 6, self.duplex);
        fields::put8(out, at + 7, self.mdi);
        fields::put8(out, at + 8, self.connector);
        fields::put8(out, at + 9, self.clock);
        fields::put8(out, at + 10, self.pairs);
        fields::put8(out, at + 11, self.hardware);
        fields::put32(out, at + 12, self.bitrate);
    }
}
