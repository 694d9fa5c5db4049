// What the CAN messages of types 1, 86 and 100 begin with: 8 bytes.
ghost use Rattle.std.specs.Prelude.{◌≡◌, ◌+◌, ◌≤◌, length};
ghost use Rattle.fields.specs.Written.{Wrote};
ghost use Rattle.fields.specs.Slots.{bytes_of};
ghost use Rattle.can.specs.Tables.{front_slots};
ghost use Rattle.can.specs.Fields.{front_of};

#[derive(Clone, Copy)]
pub(crate) struct Front {
    pub(crate) channel: u16,
    pub(crate) flags: u8,
    pub(crate) dlc: u8,
    pub(crate) id: u32,
}

// The front of a body.
pub(crate) fn get_front(b: &[u8]) -> Front
    requires { 8 ≤ length b.now }
    ensures { result ≡ front_of b.now }
{
    Front {
        channel: fields::get16(b, 0),
        flags: fields::get8(b, 2),
        dlc: fields::get8(b, 3),
        id: fields::get32(b, 4),
    }
}

// A front, written at a place.
pub(crate) fn put_front(out: &mut [u8], at: usize, f: Front)
    requires { at + 8 ≤ length out.old }
    ensures { Wrote at (bytes_of (front_slots (λ f. f)) f) out.old out.new }
{
    fields::put16(out, at, f.channel);
    fields::put8(out, at + 2, f.flags);
    fields::put8(out, at + 3, f.dlc);
    fields::put32(out, at + 4, f.id);
}
