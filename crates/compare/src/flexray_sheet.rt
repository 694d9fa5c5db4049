// The FlexRay record as it is read: its numbers in the order of its fields.
use crate::sheet::{Sheet, put_all, put_header};
use flexray::Receive;

impl Sheet for Receive {
    fn put(self, out: &mut [u8]) -> usize {
        let values = [
            u64::from(self.channel),
            u64::from(self.version),
            u64::from(self.mask),
            u64::from(self.direction),
            u64::from(self.client),
            u64::from(self.cluster),
            u64::from(self.id),
            u64::from(self.crca),
            u64::from(self.crcb),
            u64::from(self.total),
            u64::from(self.stored),
            u64::from(self.cycle),
            u64::from(self.tag),
            u64::from(self.state),
            u64::from(self.flags),
        ];
        let at = put_header(out, self.header);
        let end = put_all(out, at, &values);
        put_all(out, end, &self.bytes)
    }
}
