// Examples of reading: each refusal from 1 to 9, and what is let through.
use crate::{samples, tell};
use objects::Cursor;
use std::io;

pub fn positions(rt: &impl Print) -> io::Result<()> {
    let log = samples::overload();
    tell::step(rt, b"an overload, from its first byte: ", &log, 0)?;
    tell::step(rt, b"an overload, at its end: ", &log, 36)?;
    tell::step(rt, b"an overload, a byte past its end: ", &log, 37)?;
    tell::step(rt, b"an overload, 15 bytes before its end: ", &log, 21)
}

pub fn heads(rt: &impl Print) -> io::Result<()> {
    let mut log = samples::overload();
    log[0] = 0x4d;
    tell::walk(rt, b"an overload with another signature: ", &log)?;
    log[0] = 0x4c;
    log[8] = 40;
    tell::walk(rt, b"an overload with object size 40: ", &log)?;
    log[8] = 36;
    log[6] = 2;
    tell::walk(rt, b"an overload with header version 2: ", &log)
}

pub fn ends(rt: &impl Print) -> io::Result<()> {
    let log = samples::overload();
    tell::walk_first(rt, b"an overload without its last byte: ", &log, 35)
}

pub fn contents(rt: &impl Print) -> io::Result<()> {
    let mut log = samples::overload();
    log[16] = 3;
    tell::walk(rt, b"an overload with time unit 3: ", &log)?;
    log[16] = 1;
    tell::walk(rt, b"an overload in ten microseconds: ", &log)?;
    log[35] = 1;
    tell::walk(rt, b"an overload whose reserved byte 35 is 1: ", &log)
}

pub fn frames(rt: &impl Print) -> io::Result<()> {
    let mut log = samples::frame();
    tell::step(rt, b"a frame of 1,612 bytes: ", &log, 0)?;
    log[8] = 0x8d;
    tell::step(rt, b"a frame of object size 1,677: ", &log, 0)?;
    log[8] = 0x8b;
    tell::step(rt, b"a frame whose length is not size minus 64: ", &log, 0)
}

pub fn padding(rt: &impl Print) -> io::Result<()> {
    let mut log = samples::room();
    let _ = flexray_records::write_receive(samples::receive(2, 4, 4), &mut log);
    tell::walk_first(
        rt,
        b"a FlexRay receive of 330 bytes with its padding: ",
        &log,
        332,
    )?;
    log[331] = 1;
    tell::walk_first(
        rt,
        b"a FlexRay receive whose last padding byte is 1: ",
        &log,
        332,
    )?;
    tell::walk_first(rt, b"a FlexRay receive without its padding: ", &log, 330)
}

pub fn foreigners(rt: &impl Print) -> io::Result<()> {
    let mut log = samples::foreigner();
    tell::step(rt, b"a foreign object of 17 bytes: ", &log, 0)?;
    log[17] = 1;
    tell::step(rt, b"a foreign object whose padding byte is 1: ", &log, 0)
}

pub fn tails(rt: &impl Print) -> io::Result<()> {
    let mut log = samples::room();
    let _ = lin_records::write_message(samples::message(), &mut log);
    tell::step(
        rt,
        b"a LIN message whose exact header baud rate is 0: ",
        &log,
        0,
    )?;
    log[175] = 0x80;
    tell::step(
        rt,
        b"a LIN message whose exact header baud rate is minus 0: ",
        &log,
        0,
    )?;
    log[174] = 0xf0;
    log[175] = 0x7f;
    tell::step(
        rt,
        b"a LIN message whose exact header baud rate is infinite: ",
        &log,
        0,
    )?;
    log[8] = 168;
    tell::step(
        rt,
        b"a LIN message that ends with the response baud rate: ",
        &log,
        0,
    )?;
    log[8] = 172;
    tell::step(rt, b"a LIN message of object size 172: ", &log, 0)
}

pub fn counts(rt: &impl Print) -> io::Result<()> {
    let mut log = samples::room();
    let _ = flexray_records::write_receive(samples::receive(2, 254, 254), &mut log);
    let read = flexray_records::read_receive(&log, Cursor::new());
    tell::read(rt, b"data count 254 of 254: ", read.told)?;
    log[54] = 255;
    log[56] = 255;
    let read = flexray_records::read_receive(&log, Cursor::new());
    tell::read(rt, b"data count 255 of 255: ", read.told)?;
    log[54] = 9;
    log[56] = 10;
    let read = flexray_records::read_receive(&log, Cursor::new());
    tell::read(rt, b"data count 10 of 9: ", read.told)
}

pub fn records(rt: &impl Print) -> io::Result<()> {
    let log = samples::overload();
    let read = can_records::read_overload(&log, Cursor::new());
    tell::read(rt, b"an overload, read as an overload: ", read.told)?;
    let read = lin_records::read_wake_up(&log, Cursor::new());
    tell::read(rt, b"an overload, read as a wake-up: ", read.told)?;
    let read = can_records::read_overload(&log, Cursor { at: 36 });
    tell::read(rt, b"behind an overload, read as an overload: ", read.told)
}
