// The CAN statistic, type 4.
#![tactic(auto, using(crate::proofs::Laws::statistic_length), unfolding(crate::specs::Fields::statistic_of, headers::specs::HeadTests::first))]

ghost use Rattle.std.specs.Prelude.{true, refl, ◌+◌, ◌≤◌, length};
ghost use Rattle.fields.specs.Written.{Wrote};
ghost use Rattle.fields.specs.Slots.{bytes_of};
ghost use Rattle.headers.specs.declared.kind.Kind.TheVariants as code;
ghost use Rattle.can.specs.Tables.{counter_slots, statistic_slots};
ghost use Rattle.can.specs.Fields.{statistic_of, statistic_format};

use headers::{Fault, Header, Kind, Record, Whole};

#[derive(Clone, Copy)]
pub struct Statistic {
    pub header: Header,
    pub channel: u16,
    // in 1/100 percent
    pub load: u16,
    pub standard_data: u32,
    pub extended_data: u32,
    pub standard_remote: u32,
    pub extended_remote: u32,
    pub errors: u32,
    pub overloads: u32,
}

impl Record for Statistic {
    ghost LENGTH = { 28 };

    ghost of = { statistic_of };

    ghost gaps = { statistic_format.gaps };

    ghost rules = { statistic_format.rules };

    ghost short = { refl };

    const LENGTH: usize = 28;

    fn get(h: Header, b: &[u8]) -> Self {
        Self {
            header: h,
            channel: fields::get16(b, 0),
            load: fields::get16(b, 2),
            standard_data: fields::get32(b, 4),
            extended_data: fields::get32(b, 8),
            standard_remote: fields::get32(b, 12),
            extended_remote: fields::get32(b, 16),
            errors: fields::get32(b, 20),
            overloads: fields::get32(b, 24),
        }
    }

    fn check(_b: &[u8]) -> Result<(), Fault> {
        Ok(())
    }

    fn wrong_byte(_o: &[u8], _head: usize) -> usize {
        0
    }

    fn wrong_field(_b: &[u8]) -> usize {
        0
    }
}

impl Whole for Statistic {
    ghost KIND = { code.CanStatistic };

    ghost header = { statistic_format.header };

    ghost body = { bytes_of statistic_slots };

    ghost content = { statistic_format.content };

    ghost writable = { λ r. true };

    ghost may_write = { λ r _. refl };

    const KIND: Kind = Kind::CanStatistic;

    fn header(self) -> Header {
        self.header
    }

    fn length(self) -> usize {
        Self::LENGTH
    }

    fn content(self) -> bool {
        true
    }

    fn put(self, out: &mut [u8], at: usize) {
        fields::put16(out, at, self.channel);
        fields::put16(out, at + 2, self.load);
        put_counters(out, at + 4, self);
    }
}

// The six counters, written at a place.
fn put_counters(out: &mut [u8], at: usize, r: Statistic)
    requires { at + 24 ≤ length out.old }
    ensures { Wrote at (bytes_of counter_slots r) out.old out.new }
{
    fields::put32(out, at, r.standard_data);
    fields::put32(out, at + 4, r.extended_data);
    fields::put32(out, at + 8, r.standard_remote);
    fields::put32(out, at + 12, r.extended_remote);
    fields::put32(out, at + 16, r.errors);
    fields::put32(out, at + 20, r.overloads);
}
