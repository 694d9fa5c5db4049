// The CAN records as they are read: their numbers in the order of their fields.
use crate::sheet::{Sheet, put_all, put_header};
use can::{FdMessage, Message, MessageTwo, Overload, Statistic};

impl Sheet for Message {
    fn put(self, out: &mut [u8]) -> usize {
        let values = [
            u64::from(self.channel),
            u64::from(self.flags),
            u64::from(self.dlc),
            u64::from(self.id),
        ];
        let at = put_header(out, self.header);
        let end = put_all(out, at, &values);
        put_all(out, end, &self.bytes)
    }
}

impl Sheet for Overload {
    fn put(self, out: &mut [u8]) -> usize {
        let at = put_header(out, self.header);
        put_all(out, at, &[self.channel])
    }
}

impl Sheet for Statistic {
    fn put(self, out: &mut [u8]) -> usize {
        let values = [
            u64::from(self.channel),
            u64::from(self.load),
            u64::from(self.standard_data),
            u64::from(self.extended_data),
            u64::from(self.standard_remote),
            u64::from(self.extended_remote),
            u64::from(self.errors),
            u64::from(self.overloads),
        ];
        let at = put_header(out, self.header);
        put_all(out, at, &values)
    }
}

impl Sheet for MessageTwo {
    fn put(self, out: &mut [u8]) -> usize {
        let at = self.message.put(out);
        put_all(
            out,
            at,
            &[u64::from(self.frame_length), u64::from(self.bit_count)],
        )
    }
}

impl Sheet for FdMessage {
    fn put(self, out: &mut [u8]) -> usize {
        let values = [
            u64::from(self.channel),
            u64::from(self.flags),
            u64::from(self.dlc),
            u64::from(self.id),
            u64::from(self.frame_length),
            u64::from(self.bit_count),
            u64::from(self.fd_flags),
            u64::from(self.valid_bytes),
        ];
        let at = put_header(out, self.header);
        let end = put_all(out, at, &values);
        put_all(out, end, &self.bytes)
    }
}
