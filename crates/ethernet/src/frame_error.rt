// The Ethernet error, type 122, and the forwarded error, type 123: a frame that went wrong.
#![tactic(auto, using(crate::proofs::Laws::error_length), unfolding(crate::specs::Fields::error_of, headers::specs::HeadTests::first))]

ghost use Rattle.std.specs.Prelude.{refl};
ghost use Rattle.fields.specs.Slots.{bytes_of};
ghost use Rattle.ethernet.specs.Fields.{structure_length, error_of, error_format};
ghost use Rattle.ethernet.specs.Tables.{error_slots};

use crate::event::{Lent, length_fault, put_event, wrong_length};
use crate::frame::Frame;
use headers::{Fault, Header, Record};

// The frame's fields, and the error code where a frame has reserved bytes.
#[derive(Clone, Copy)]
pub struct FrameError {
    pub frame: Frame,
    pub code: u32,
}

impl Record for FrameError {
    ghost LENGTH = { structure_length };

    ghost of = { error_of };

    ghost gaps = { error_format.gaps };

    ghost rules = { error_format.rules };

    ghost short = { refl };

    const LENGTH: usize = Frame::LENGTH;

    fn get(h: Header, b: &[u8]) -> Self {
        Self {
            frame: Frame::get(h, b),
            code: fields::get32(b, 28),
        }
    }

    fn check(b: &[u8]) -> Result<(), Fault> {
        length_fault(b)
    }

    fn wrong_byte(_o: &[u8], _head: usize) -> usize {
        0
    }

    fn wrong_field(b: &[u8]) -> usize {
        wrong_length(b)
    }
}

impl Lent for FrameError {
    ghost header = { λ e. e.frame.header };

    ghost body = { λ e b. bytes_of error_slots (record { value = e; bytes = b }) };

    fn header(self) -> Header {
        self.frame.header
    }

    fn length(self, lent: &[u8]) -> usize {
        Self::LENGTH + lent.len()
    }

    fn put(self, out: &mut [u8], at: usize, lent: &[u8]) {
        put_event(out, at, self.frame, self.code, lent);
    }
}
