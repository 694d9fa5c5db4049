// The LIN records as they are read: their numbers in the order of their fields.
ghost use Rattle.std.specs.Prelude.{◌≤◌, length};
ghost use Rattle.compare.specs.Kept.{Kept};

use crate::sheet::{Sheet, put_all, put_header};
use lin::{Message, Tail, WakeUp};

// The bits of a rate; those of one NaN for all.
fn bits(exact: f64) -> u64 {
    if exact.is_nan() {
        return 0x7ff8_0000_0000_0000;
    }
    exact.to_bits()
}

// A number for the way in which the message ends, 0, 1 or 2, and what it ends with.
fn put_tail(out: &mut [u8], from: usize, t: Tail) -> usize
    requires { from ≤ length out.old }
    ensures { Kept result out.old out.new }
{
    match t {
        Tail::Nothing => put_all(out, from, &[0u64]),
        Tail::Response(response) => put_all(out, from, &[1, u64::from(response)]),
        Tail::Rates {
            response,
            exact,
            header_stop,
            response_stop,
        } => {
            let values = [
                2,
                u64::from(response),
                bits(exact),
                u64::from(header_stop),
                u64::from(response_stop),
            ];
            put_all(out, from, &values)
        }
    }
}

impl Sheet for Message {
    fn put(self, out: &mut [u8]) -> usize {
        let front = [
            self.start,
            u64::from(self.baud),
            u64::from(self.channel),
            self.breaking,
            self.delimiter,
            u64::from(self.supplier),
            u64::from(self.message),
            u64::from(self.nad),
            u64::from(self.id),
            u64::from(self.dlc),
            u64::from(self.model),
        ];
        let marks = [
            u64::from(self.checksum),
            u64::from(self.direction),
            u64::from(self.simulated),
            u64::from(self.triggered),
            u64::from(self.index),
            u64::from(self.associated),
            u64::from(self.machine),
            u64::from(self.state),
        ];
        let a = put_header(out, self.header);
        let b = put_all(out, a, &front);
        let c = put_all(out, b, &self.stamps);
        let d = put_all(out, c, &self.bytes);
        let e = put_all(out, d, &marks);
        put_tail(out, e, self.tail)
    }
}

impl Sheet for WakeUp {
    fn put(self, out: &mut [u8]) -> usize {
        let values = [
            self.start,
            u64::from(self.baud),
            u64::from(self.channel),
            u64::from(self.info),
            u64::from(self.signal),
            u64::from(self.external),
        ];
        let at = put_header(out, self.header);
        put_all(out, at, &values)
    }
}
