// What a frame and an error have in common: the whole body, but for the meaning of the four bytes at 28.
ghost use Rattle.std.specs.Prelude.{◌≡◌, ℕ, ◌+◌, ◌-◌, ◌≤◌, List, length, eqb};
ghost use Rattle.fields.specs.Numbers.{num};
ghost use Rattle.fields.specs.Rules.{each_right};
ghost use Rattle.fields.specs.Written.{Wrote};
ghost use Rattle.fields.specs.Slots.{number, bytes_of};
ghost use Rattle.fields.specs.Wrong.{wrong_field};
ghost use Rattle.headers.specs.declared.header.Header.{Header};
ghost use Rattle.headers.specs.Faults.{tested};
ghost use Rattle.headers.specs.HeadTests.{first};
ghost use Rattle.ethernet.specs.Fields.{structure_length, longest_frame, length_rules};
ghost use Rattle.ethernet.specs.Tables.{origin_slots, transmission_slots, event_slots};

use crate::frame::Frame;
use headers::{Fault, Header, Record};

// A record beside which its frame's bytes stand: where it is written, they are lent.
pub trait Lent: Record {
    ghost header: { Self → Header };

    // The bytes of its body, the frame's among them.
    ghost body: { Self → List ℕ → List ℕ };

    fn header(self) -> Header
        ensures { result ≡ header self };

    // The length of its body: of the structure and the frame's bytes.
    fn length(self, lent: &[u8]) -> usize
        ensures { (result ≡ length (body self lent.now)) × (result ≡ structure_length + length lent.now) };

    // Its body, written at a place.
    fn put(self, out: &mut [u8], at: usize, lent: &[u8])
        requires { (at + length (body self lent.now) ≤ length out.old) × (length lent.now ≤ longest_frame) }
        ensures { Wrote at (body self lent.now) out.old out.new };
}

// Whether the structure length in a body is right.
fn structure_right(b: &[u8]) -> bool
    requires { structure_length ≤ length b.now }
    ensures { result ≡ eqb (num 2 b.now 0) structure_length }
{
    fields::get16(b, 0) as usize == Frame::LENGTH
}

// Whether the frame length in a body is right.
fn frame_right(b: &[u8]) -> bool
    requires { structure_length ≤ length b.now }
    ensures { result ≡ eqb (num 2 b.now 22) (length b.now - structure_length) }
{
    fields::get16(b, 22) as usize == b.len() - Frame::LENGTH
}

// What refuses the two lengths in a body: 9.
#[tactic(auto, unfolding(headers::specs::Form::body_fault, headers::specs::HeadTests::first))]
pub(crate) fn length_fault(b: &[u8]) -> Result<(), Fault>
    requires { structure_length ≤ length b.now }
    ensures { tested result ≡ first 9 (each_right (length_rules b.now)) 0 }
{
    if !structure_right(b) || !frame_right(b) {
        return Err(Fault::Content);
    }
    Ok(())
}

// The place in a body of the first of the two lengths that is wrong, structure length or frame length; else 0.
pub(crate) fn wrong_length(b: &[u8]) -> usize
    requires { structure_length ≤ length b.now }
    ensures { result ≡ wrong_field (length_rules b.now) }
{
    fields::wrong_field(
        structure_right(b),
        0,
        fields::wrong_field(frame_right(b), 22, 0),
    )
}

fn put_origin(out: &mut [u8], at: usize, r: Frame)
    requires { at + 8 ≤ length out.old }
    ensures { Wrote at (bytes_of (origin_slots (λ f. f)) r) out.old out.new }
{
    fields::put16(out, at, Frame::LENGTH as u16);
    fields::put16(out, at + 2, r.flags);
    fields::put16(out, at + 4, r.channel);
    fields::put16(out, at + 6, r.hardware);
}

fn put_transmission(out: &mut [u8], at: usize, r: Frame, n: u16)
    requires { at + 20 ≤ length out.old }
    ensures { Wrote at (bytes_of (transmission_slots (λ f. f) (λ f. n)) r) out.old out.new }
{
    fields::put64(out, at, r.duration);
    fields::put32(out, at + 8, r.checksum);
    fields::put16(out, at + 12, r.direction);
    fields::put16(out, at + 14, n);
    fields::put32(out, at + 16, r.handle);
}

// The body of a frame or an error, written at a place; `last` is the number at 28.
pub(crate) fn put_event(out: &mut [u8], at: usize, r: Frame, last: u32, lent: &[u8])
    requires { (at + structure_length + length lent.now ≤ length out.old) × (length lent.now ≤ longest_frame) }
    ensures { Wrote at (bytes_of (event_slots (λ f. f) (number 4 (λ f. last)) (λ f. lent.now)) r) out.old out.new }
{
    put_origin(out, at, r);
    put_transmission(out, at + 8, r, lent.len() as u16);
    fields::put32(out, at + 28, last);
    fields::put_bytes(out, at + Frame::LENGTH, lent);
}
