// Examples of writing: the longest frame, and 11.
use crate::{samples, tell};
use ethernet::Frame;
use std::io;

fn frame() -> Frame {
    Frame {
        header: samples::first(),
        flags: 0,
        channel: 1,
        hardware: 0,
        duration: 0,
        checksum: 0,
        direction: 0,
        handle: 0,
    }
}

pub fn frames(rt: &impl Print) -> io::Result<()> {
    let mut out = [0u8; 1680];
    let longest = [7u8; 1612];
    let written = ethernet_records::write_frame(frame(), &longest, &mut out);
    tell::write(rt, b"writing a frame of 1,612 bytes: ", written)?;
    let longer = [7u8; 1613];
    let written = ethernet_records::write_frame(frame(), &longer, &mut out);
    tell::write(rt, b"writing a frame of 1,613 bytes: ", written)
}

pub fn foreigners(rt: &impl Print) -> io::Result<()> {
    let mut out = [0u8; 40];
    let listed = samples::overload();
    let written = records::write_foreign(&listed, &mut out);
    tell::write(rt, b"writing an overload as a foreign object: ", written)?;
    let mut other = samples::overload();
    other[12] = 9;
    let written = records::write_foreign(&other, &mut out);
    tell::write(
        rt,
        b"writing an object of type 9 as a foreign object: ",
        written,
    )?;
    other[12] = 86;
    let written = records::write_foreign(&other, &mut out);
    tell::write(
        rt,
        b"an old foreign copy, of type 86 now listed (W-208): ",
        written,
    )?;
    other[12] = 100;
    let written = records::write_foreign(&other, &mut out);
    tell::write(rt, b"the same of type 100: ", written)
}
