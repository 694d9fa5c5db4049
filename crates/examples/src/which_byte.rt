// Examples of W-205: the place of a refusal is the byte at fault. Of a field it is the first, of reserved bytes and of
// padding the first wrong one.
ghost use Rattle.std.specs.Prelude.{◌<◌};

use crate::{samples, tell};
use std::io;

// What a walk of two overloads answers, one byte set to another.
fn walk_with(rt: &impl Print, words: &[u8], at: usize, byte: u8) -> io::Result<()>
    requires { at < 72 }
{
    tell::walk(rt, words, &samples::twice_with(at, byte))
}

// The second of two overloads: every place counts from the log's first byte.
pub fn fields(rt: &impl Print) -> io::Result<()> {
    walk_with(
        rt,
        b"two overloads, the second's last signature letter 0: ",
        39,
        0,
    )?;
    walk_with(rt, b"its object size 40: ", 44, 40)?;
    walk_with(rt, b"its header size 33: ", 40, 33)?;
    walk_with(rt, b"its header version 2: ", 42, 2)?;
    walk_with(rt, b"the last byte of its time unit 1: ", 55, 1)?;
    walk_with(rt, b"its reserved byte 34 is 1: ", 70, 1)?;
    walk_with(rt, b"its reserved byte 35 is 1: ", 71, 1)?;
    tell::walk_first(
        rt,
        b"without its last byte: ",
        &samples::twice_with(68, 1),
        71,
    )?;
    tell::walk_first(
        rt,
        b"without its last twenty bytes: ",
        &samples::twice_with(68, 1),
        52,
    )
}

// FlexRay receive has three runs of reserved bytes: 39, 59, and 72 to 75.
pub fn reserved(rt: &impl Print) -> io::Result<()> {
    let mut log = samples::room();
    let _ = flexray_records::write_receive(samples::receive(2, 4, 4), &mut log);
    log[75] = 1;
    tell::step(
        rt,
        b"a FlexRay receive whose reserved byte 75 is 1: ",
        &log,
        0,
    )?;
    log[73] = 1;
    tell::step(rt, b"and byte 73: ", &log, 0)?;
    log[59] = 1;
    tell::step(rt, b"and byte 59: ", &log, 0)?;
    log[39] = 1;
    tell::step(rt, b"and byte 39: ", &log, 0)?;
    log[330] = 1;
    tell::step(rt, b"and a padding byte, which is tried before: ", &log, 0)
}

// The header's own reserved byte, 21, stands before the body's, which are 42 and 43 there.
pub fn both_reserved(rt: &impl Print) -> io::Result<()> {
    let mut log = samples::second_overload();
    log[43] = 1;
    tell::walk(
        rt,
        b"an overload under the second header, byte 43 is 1: ",
        &log,
    )?;
    log[21] = 1;
    tell::walk(rt, b"and byte 21: ", &log)
}

// A frame of 63 bytes has three bytes of padding, from 127 on.
pub fn padding(rt: &impl Print) -> io::Result<()> {
    let mut log = samples::behind(&[7u8; 63], 130);
    log[129] = 1;
    tell::walk_first(
        rt,
        b"a frame of 63 bytes whose third padding byte is 1: ",
        &log,
        166,
    )?;
    log[128] = 2;
    tell::walk_first(rt, b"and the second is 2: ", &log, 166)?;
    log[127] = 3;
    tell::walk_first(rt, b"and the first is 3: ", &log, 166)
}

// Two lengths that can be wrong, at 32 and 54.
pub fn lengths(rt: &impl Print) -> io::Result<()> {
    let mut log = samples::behind(&[7u8; 64], 128);
    log[54] = 63;
    tell::walk_first(rt, b"a frame of 64 bytes with frame length 63: ", &log, 164)?;
    log[32] = 33;
    tell::walk_first(rt, b"and with structure length 33: ", &log, 164)?;
    log[54] = 64;
    tell::walk_first(rt, b"with structure length 33 alone: ", &log, 164)
}

// FlexRay's data count under the second header is at 64.
pub fn counts(rt: &impl Print) -> io::Result<()> {
    let mut log = samples::room();
    let mut receive = samples::receive(2, 4, 4);
    let header = samples::second();
    receive.header = header;
    let _ = flexray_records::write_receive(receive, &mut log);
    tell::step(rt, b"a FlexRay receive under the second header: ", &log, 0)?;
    log[64] = 5;
    tell::step(rt, b"data count 5 of 4: ", &log, 0)?;
    log[65] = 1;
    tell::step(rt, b"data count 261 of 4: ", &log, 0)
}
