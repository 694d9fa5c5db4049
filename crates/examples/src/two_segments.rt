// Examples of W-206: a log in two segments, the older first. Two overloads have 72 bytes.
use crate::{samples, tell};
use std::io;

// The second overload: where it lies by the cut, and what a scratch must have.
pub fn cuts(rt: &impl Print) -> io::Result<()> {
    let log = samples::twice_with(68, 1);
    tell::ring_step(
        rt,
        b"two overloads, cut at 37, the second, a scratch of 36 bytes: ",
        &log,
        37,
        36,
        36,
    )?;
    tell::ring_step(rt, b"a scratch of 35 bytes: ", &log, 37, 36, 35)?;
    tell::ring_step(rt, b"cut at 36, no scratch: ", &log, 36, 36, 0)?;
    tell::ring_step(rt, b"cut at 72, no scratch: ", &log, 72, 36, 0)?;
    tell::ring_step(rt, b"cut at 0, no scratch: ", &log, 0, 36, 0)?;
    tell::ring_step(rt, b"at the end: ", &log, 37, 72, 0)?;
    tell::ring_step(rt, b"past the end: ", &log, 37, 73, 0)
}

// 12 comes behind 6 and before 7: the second overload is at fault and lies in both segments.
pub fn orders(rt: &impl Print) -> io::Result<()> {
    let reserved = samples::twice_with(70, 1);
    tell::ring_step(
        rt,
        b"its reserved byte 34 is 1, cut at 50, a scratch of 36 bytes: ",
        &reserved,
        50,
        36,
        36,
    )?;
    tell::ring_step(rt, b"a scratch of 35 bytes: ", &reserved, 50, 36, 35)?;
    let header = samples::twice_with(42, 2);
    tell::ring_step(
        rt,
        b"its header version 2, a scratch of 35 bytes: ",
        &header,
        50,
        36,
        35,
    )
}

// The padding of a foreign object of 17 bytes may cross, without a scratch.
pub fn padding(rt: &impl Print) -> io::Result<()> {
    let mut log = samples::foreigner();
    tell::ring_step(
        rt,
        b"a foreign object of 17 bytes, cut at 17, no scratch: ",
        &log,
        17,
        0,
        0,
    )?;
    tell::ring_step(rt, b"cut at 16, no scratch: ", &log, 16, 0, 0)?;
    tell::ring_step(rt, b"a scratch of 17 bytes: ", &log, 16, 0, 17)?;
    log[17] = 1;
    tell::ring_step(rt, b"its padding byte being 1: ", &log, 17, 0, 0)
}
