// What both records begin with.
ghost use Rattle.std.specs.Prelude.{◌+◌, ◌≤◌, length};
ghost use Rattle.fields.specs.Written.{Wrote};
ghost use Rattle.fields.specs.Slots.{bytes_of};
ghost use Rattle.lin.specs.Tables.{bus_slots};

pub(crate) fn put_bus(out: &mut [u8], at: usize, start: u64, baud: u32, channel: u16)
    requires { at + 16 ≤ length out.old }
    ensures { Wrote at (bytes_of (bus_slots {A = Unit} (λ u. start) (λ u. baud) (λ u. channel)) tt) out.old out.new }
{
    fields::put64(out, at, start);
    fields::put32(out, at + 8, baud);
    fields::put16(out, at + 12, channel);
    fields::put_zeros(out, at + 14, 2);
}
