// Examples of W-208: CAN message 2, of 56 bytes, and CAN FD, of 120.
ghost use Rattle.std.specs.Prelude.{◌≡◌, length};

use crate::{samples, tell};
use objects::Cursor;
use std::io;

// A CAN FD message with so many valid bytes: all 64 data bytes are kept, and the DLC says something else.
fn message(valid_bytes: u8) -> can::FdMessage {
    can::FdMessage {
        header: samples::header(2),
        channel: 1,
        flags: 0,
        dlc: 3,
        id: 256,
        frame_length: 0,
        bit_count: 0,
        fd_flags: 0,
        valid_bytes,
        bytes: [7; 64],
    }
}

// The object of one with 64.
fn object() -> [u8; 120]
    ensures { 120 ≡ length result }
{
    let mut log = [0u8; 120];
    let _ = can_records::write_fd_message(message(64), &mut log);
    log
}

pub fn reading(rt: &impl Print) -> io::Result<()> {
    let mut log = object();
    tell::walk(rt, b"a CAN FD message with 64 valid bytes: ", &log)?;
    log[46] = 65;
    tell::walk(rt, b"with 65: ", &log)?;
    log[119] = 1;
    tell::walk(rt, b"and its last byte, which is reserved, is 1: ", &log)?;
    log[47] = 1;
    tell::walk(rt, b"and byte 47: ", &log)
}

pub fn sizes(rt: &impl Print) -> io::Result<()> {
    let mut log = object();
    log[8] = 116;
    tell::walk_first(
        rt,
        b"a CAN FD message of 116 bytes, as python-can has it: ",
        &log,
        116,
    )?;
    let read = can_records::read_message(&log, Cursor::new());
    tell::read(rt, b"read as a CAN message: ", read.told)?;
    log[8] = 120;
    let read = can_records::read_message(&log, Cursor::new());
    tell::read(rt, b"the same with 120 bytes: ", read.told)
}

pub fn writing(rt: &impl Print) -> io::Result<()> {
    let mut out = [0u8; 120];
    let some = can_records::write_fd_message(message(64), &mut out);
    tell::write(rt, b"writing 64 valid bytes: ", some)?;
    let none = can_records::write_fd_message(message(65), &mut out);
    tell::write(rt, b"writing 65 valid bytes: ", none)?;
    let mut short = [0u8; 119];
    let none = can_records::write_fd_message(message(64), &mut short);
    tell::write(rt, b"writing 64 valid bytes into 119 bytes: ", none)
}

pub fn message_two(rt: &impl Print) -> io::Result<()> {
    let message = can::Message {
        header: samples::second(),
        channel: 1,
        flags: 0,
        dlc: 8,
        id: 256,
        bytes: [7; 8],
    };
    let record = can::MessageTwo {
        message,
        frame_length: 222000,
        bit_count: 111,
    };
    let mut log = [0u8; 64];
    let some = can_records::write_message_two(record, &mut log);
    tell::write(
        rt,
        b"writing a CAN message 2 under the second header: ",
        some,
    )?;
    tell::step(rt, b"reading it: ", &log, 0)?;
    log[61] = 1;
    tell::walk(rt, b"its first reserved byte is 1: ", &log)
}
