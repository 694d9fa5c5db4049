// Examples of W-202: objects and records under the second header, and which test comes first.
use crate::{samples, tell};
use std::io;

pub fn sizes(rt: &impl Print) -> io::Result<()> {
    let mut log = samples::second_overload();
    tell::walk(rt, b"an overload under the second header: ", &log)?;
    tell::step(rt, b"the same, by a step: ", &log, 0)?;
    log[8] = 36;
    tell::walk(
        rt,
        b"the same with the first header's object size, 36: ",
        &log,
    )?;
    log[8] = 5;
    tell::walk(rt, b"the same with object size 5: ", &log)?;
    let mut first = samples::overload();
    first[8] = 44;
    tell::walk(
        rt,
        b"an overload under the first header with object size 44: ",
        &first,
    )
}

pub fn pairs(rt: &impl Print) -> io::Result<()> {
    let mut log = samples::second_overload();
    log[6] = 1;
    tell::walk(rt, b"an overload with header size 40 and version 1: ", &log)?;
    log[4] = 33;
    log[8] = 5;
    tell::walk(
        rt,
        b"an overload with header size 33, version 1 and object size 5: ",
        &log,
    )?;
    let mut foreign = samples::foreigner();
    foreign[4] = 8;
    tell::walk(
        rt,
        b"a foreign object of 17 bytes with header size 8: ",
        &foreign,
    )?;
    foreign[8] = 15;
    tell::walk(rt, b"the same with object size 15: ", &foreign)
}

pub fn reserved(rt: &impl Print) -> io::Result<()> {
    let mut log = samples::second_overload();
    log[21] = 1;
    tell::walk(rt, b"an overload whose reserved byte 21 is 1: ", &log)?;
    log[16] = 3;
    tell::walk(rt, b"the same with time unit 3: ", &log)?;
    let mut first = samples::overload();
    first[21] = 1;
    tell::walk(rt, b"byte 21 set under the first header: ", &first)
}

pub fn frames(rt: &impl Print) -> io::Result<()> {
    let mut log = [0u8; 1684];
    let header = samples::second();
    let mut frame = ethernet_records::frame_in(&log);
    frame.header = header;
    let written = ethernet_records::write_frame(frame, &[0u8; 1612], &mut log);
    tell::write(
        rt,
        b"writing a frame of 1,612 bytes under the second header: ",
        written,
    )?;
    tell::walk(rt, b"reading it: ", &log)?;
    log[62] = 0x54;
    tell::walk(rt, b"its length is size minus 64: ", &log)
}

pub fn rooms(rt: &impl Print) -> io::Result<()> {
    let mut short = [0u8; 43];
    let none = samples::put_overload(samples::second(), &mut short);
    tell::write(
        rt,
        b"writing an overload under the second header into 43 bytes: ",
        none,
    )
}
