// The Ethernet records as they are read: their numbers in the order of their fields.
use crate::sheet::{Sheet, put_all, put_header};
use ethernet::{Frame, FrameError, Status};

impl Sheet for Status {
    fn put(self, out: &mut [u8]) -> usize {
        let values = [
            u64::from(self.channel),
            u64::from(self.flags),
            u64::from(self.link),
            u64::from(self.phy),
            u64::from(self.duplex),
            u64::from(self.mdi),
            u64::from(self.connector),
            u64::from(self.clock),
            u64::from(self.pairs),
            u64::from(self.hardware),
            u64::from(self.bitrate),
        ];
        let at = put_header(out, self.header);
        put_all(out, at, &values)
    }
}

impl Sheet for Frame {
    fn put(self, out: &mut [u8]) -> usize {
        let values = [
            u64::from(self.flags),
            u64::from(self.channel),
            u64::from(self.hardware),
            self.duration,
            u64::from(self.checksum),
            u64::from(self.direction),
            u64::from(self.handle),
        ];
        let at = put_header(out, self.header);
        put_all(out, at, &values)
    }
}

impl Sheet for FrameError {
    fn put(self, out: &mut [u8]) -> usize {
        let at = self.frame.put(out);
        put_all(out, at, &[self.code])
    }
}
