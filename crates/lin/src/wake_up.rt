// The LIN wake-up, type 62.
#![tactic(auto, using(crate::proofs::Laws::wake_up_length), unfolding(crate::specs::Fields::wake_up_of, headers::specs::HeadTests::first))]

ghost use Rattle.std.specs.Prelude.{true, refl};
ghost use Rattle.fields.specs.Slots.{bytes_of};
ghost use Rattle.headers.specs.declared.kind.Kind.TheVariants as code;
ghost use Rattle.lin.specs.Tables.{wake_up_slots};
ghost use Rattle.lin.specs.Fields.{wake_up_of, wake_up_format};

use crate::bus::put_bus;
use headers::{Fault, Header, Kind, Record, Whole};

#[derive(Clone, Copy)]
pub struct WakeUp {
    pub header: Header,
    pub start: u64,
    pub baud: u32,
    pub channel: u16,
    pub info: u8,
    pub signal: u8,
    pub external: u8,
}

impl Record for WakeUp {
    ghost LENGTH = { 20 };

    ghost of = { wake_up_of };

    ghost gaps = { wake_up_format.gaps };

    ghost rules = { wake_up_format.rules };

    ghost short = { refl };

    const LENGTH: usize = 20;

    fn get(h: Header, b: &[u8]) -> Self {
        Self {
            header: h,
            start: fields::get64(b, 0),
            baud: fields::get32(b, 8),
            channel: fields::get16(b, 12),
            info: fields::get8(b, 16),
            signal: fields::get8(b, 17),
            external: fields::get8(b, 18),
        }
    }

    fn check(b: &[u8]) -> Result<(), Fault> {
        if !fields::all_zero(b, 14, 2) || !fields::all_zero(b, 19, 1) {
            return Err(Fault::Reserved);
        }
        Ok(())
    }

    fn wrong_byte(o: &[u8], head: usize) -> usize {
        let late = fields::wrong_byte(o, head + 19, 1, 0);
        fields::wrong_byte(o, head + 14, 2, late)
    }

    fn wrong_field(_b: &[u8]) -> usize {
        0
    }
}

impl Whole for WakeUp {
    ghost KIND = { code.LinWakeUp };

    ghost header = { wake_up_format.header };

    ghost body = { bytes_of wake_up_slots };

    ghost content = { wake_up_format.content };

    ghost writable = { λ r. true };

    ghost may_write = { λ r _. refl };

    const KIND: Kind = Kind::LinWakeUp;

    fn header(self) -> Header {
        self.header
    }

    fn length(self) -> usize {
        Self::LENGTH
    }

    fn content(self) -> bool {
        true
    }

    fn put(self, out: &mut [u8], at: usize) {
        put_bus(out, at, self.start, self.baud, self.channel);
        fields::put8(out, at + 16, self.info);
        fields::put8(out, at + 17, self.signal);
        fields::put8(out, at + 18, self.external);
        fields::put_zeros(out, at + 19, 1);
    }
}
