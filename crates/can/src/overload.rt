// The CAN overload, type 3.
#![tactic(auto, using(crate::proofs::Laws::overload_length), unfolding(crate::specs::Fields::overload_of, headers::specs::HeadTests::first))]

ghost use Rattle.std.specs.Prelude.{true, refl};
ghost use Rattle.fields.specs.Slots.{bytes_of};
ghost use Rattle.headers.specs.declared.kind.Kind.TheVariants as code;
ghost use Rattle.can.specs.Tables.{overload_slots};
ghost use Rattle.can.specs.Fields.{overload_of, overload_format};

use headers::{Fault, Header, Kind, Record, Whole};

#[derive(Clone, Copy)]
pub struct Overload {
    pub header: Header,
    pub channel: u16,
}

impl Record for Overload {
    ghost LENGTH = { 4 };

    ghost of = { overload_of };

    ghost gaps = { overload_format.gaps };

    ghost rules = { overload_format.rules };

    ghost short = { refl };

    const LENGTH: usize = 4;

    fn get(h: Header, b: &[u8]) -> Self {
        Self {
            header: h,
            channel: fields::get16(b, 0),
        }
    }

    fn check(b: &[u8]) -> Result<(), Fault> {
        if !fields::all_zero(b, 2, 2) {
            return Err(Fault::Reserved);
        }
        Ok(())
    }

    fn wrong_byte(o: &[u8], head: usize) -> usize {
        fields::wrong_byte(o, head + 2, 2, 0)
    }

    fn wrong_field(_b: &[u8]) -> usize {
        0
    }
}

impl Whole for Overload {
    ghost KIND = { code.CanOverload };

    ghost header = { overload_format.header };

    ghost body = { bytes_of overload_slots };

    ghost content = { overload_format.content };

    ghost writable = { λ r. true };

    ghost may_write = { λ r _. refl };

    const KIND: Kind = Kind::CanOverload;

    fn header(self) -> Header {
        self.header
    }

    fn length(self) -> usize {
        Self::LENGTH
    }

    fn content(self) -> bool {
        true
    }

    fn put(self, out: &mut [u8], at: usize) {
        fields::put16(out, at, self.channel);
        fields::put_zeros(out, at + 2, 2);
    }
}
