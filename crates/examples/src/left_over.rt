// Examples of W-204: behind an object stand as many zero bytes as its size leaves over when divided by four. Sizes that
// leave 1 and 3 over; at 0 and 2 the rule of document 01 says the same.
use crate::{samples, tell};
use std::io;

pub fn foreigners(rt: &impl Print) -> io::Result<()> {
    let mut log = samples::foreigner();
    tell::walk_first(
        rt,
        b"a foreign object of 17 bytes and one zero byte: ",
        &log,
        18,
    )?;
    tell::walk_first(rt, b"the same without its zero byte: ", &log, 17)?;
    tell::walk(rt, b"the same with three zero bytes: ", &log)?;
    log[17] = 1;
    tell::walk_first(rt, b"the same whose padding byte is 1: ", &log, 18)
}

// One byte left over.
pub fn one_over(rt: &impl Print) -> io::Result<()> {
    let bytes = [7u8; 61];
    let mut log = samples::behind(&bytes, 126);
    tell::walk_first(rt, b"a frame of 61 bytes, object size 125: ", &log, 126)?;
    tell::walk_first(rt, b"the same cut to 125 bytes: ", &log, 125)?;
    tell::step(rt, b"an overload behind its 126 bytes: ", &log, 126)?;
    tell::walk_first(rt, b"the frame and the overload: ", &log, 162)?;
    log[125] = 1;
    tell::walk_first(rt, b"both, the padding byte being 1: ", &log, 162)?;
    let filled = samples::behind(&bytes, 128);
    tell::walk_first(rt, b"both, filled up to 128 bytes between: ", &filled, 164)?;
    tell::walk_first(
        rt,
        b"the frame alone, filled up to 128 bytes: ",
        &filled,
        128,
    )
}

// Three bytes left over.
pub fn three_over(rt: &impl Print) -> io::Result<()> {
    let bytes = [7u8; 63];
    let mut log = samples::behind(&bytes, 130);
    tell::walk_first(rt, b"a frame of 63 bytes, object size 127: ", &log, 130)?;
    tell::step(rt, b"an overload behind its 130 bytes: ", &log, 130)?;
    tell::walk_first(rt, b"the frame and the overload: ", &log, 166)?;
    log[129] = 1;
    tell::walk_first(rt, b"both, the last padding byte being 1: ", &log, 166)?;
    let filled = samples::behind(&bytes, 128);
    tell::walk_first(rt, b"both, filled up to 128 bytes between: ", &filled, 164)?;
    tell::walk_first(
        rt,
        b"the frame alone, filled up to 128 bytes: ",
        &filled,
        128,
    )
}

pub fn rooms(rt: &impl Print) -> io::Result<()> {
    let mut short = [0u8; 125];
    let none = samples::put_frame(&[7u8; 61], &mut short);
    tell::write(rt, b"writing a frame of 61 bytes into 125 bytes: ", none)?;
    let mut whole = [0u8; 126];
    let some = samples::put_frame(&[7u8; 61], &mut whole);
    tell::write(rt, b"writing a frame of 61 bytes into 126 bytes: ", some)?;
    let mut short = [0u8; 129];
    let none = samples::put_frame(&[7u8; 63], &mut short);
    tell::write(rt, b"writing a frame of 63 bytes into 129 bytes: ", none)?;
    let mut whole = [0u8; 130];
    let some = samples::put_frame(&[7u8; 63], &mut whole);
    tell::write(rt, b"writing a frame of 63 bytes into 130 bytes: ", some)?;
    let mut most = samples::room();
    let some = samples::put_frame(&[7u8; 1611], &mut most);
    tell::write(rt, b"writing a frame of 1,611 bytes: ", some)
}

// Objects end to end as python-can writes its markers: they begin at 0, 104, 210 and 318.
pub fn python_can(rt: &impl Print) -> io::Result<()> {
    let mut log = samples::python_can(96);
    tell::walk(
        rt,
        b"python-can's form, type 96, sizes 104 to 107 end to end: ",
        &log,
    )?;
    tell::step(rt, b"the one of 105 bytes: ", &log, 104)?;
    tell::step(rt, b"the one of 106 bytes: ", &log, 210)?;
    tell::step(rt, b"the one of 107 bytes: ", &log, 318)?;
    tell::walk_first(rt, b"without the last zero byte: ", &log, 427)?;
    log[427] = 1;
    tell::walk(rt, b"the last zero byte being 1: ", &log)?;
    let listed = samples::python_can(100);
    tell::walk(rt, b"the same of type 100, which is listed: ", &listed)
}
