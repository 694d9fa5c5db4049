// Examples of the slip check: each refusal from 20 to 27, and what is accepted.
use crate::{samples, tell};
use std::io;

pub fn shapes(rt: &impl Print) -> io::Result<()> {
    let log = samples::overloads();
    let mut bundle = samples::both();
    let three = [0u8; 3];
    tell::check(rt, b"a bundle of three bytes: ", &log, &three)?;
    bundle[3] = 27;
    tell::check(rt, b"a slip whose length is 27: ", &log, &bundle)?;
    bundle[3] = 38;
    tell::check(rt, b"a slip that passes the bundle's end: ", &log, &bundle)?;
    bundle[3] = 26;
    bundle[4] = 2;
    tell::check(rt, b"a slip of version 2: ", &log, &bundle)
}

pub fn desks(rt: &impl Print) -> io::Result<()> {
    let log = samples::overloads();
    let mut bundle = samples::shared();
    tell::check(rt, b"an overload for each of two desks: ", &log, &bundle)?;
    bundle[23] = 1;
    tell::check(rt, b"desk 1 after desk 1: ", &log, &bundle)
}

pub fn ninth(rt: &impl Print) -> io::Result<()> {
    let log = samples::overloads();
    let bundle = samples::nine();
    tell::check(rt, b"a byte after eight slips: ", &log, &bundle)
}

pub fn troubles(rt: &impl Print) -> io::Result<()> {
    let log = samples::overloads();
    let mut bundle = samples::both();
    bundle[21] = 0;
    tell::check(rt, b"two entries that start at 0: ", &log, &bundle)?;
    bundle[21] = 36;
    bundle[25] = 40;
    tell::check(rt, b"an entry of size 40 at 36: ", &log, &bundle)?;
    let mut bundle = samples::shared();
    bundle[27] = 0;
    tell::check(rt, b"the first overload on two slips: ", &log, &bundle)?;
    let one = [0u8, 0, 0, 14, 1, 1, 0, 0, 0, 0, 0, 0, 0, 36, 0, 0, 0, 3];
    tell::check(rt, b"the second overload on no slip: ", &log, &one)
}

// A log with both headers: a slip has the size that the object says.
pub fn headers(rt: &impl Print) -> io::Result<()> {
    let log = samples::two_headers();
    let mut bundle = samples::both();
    tell::check(
        rt,
        b"an overload of size 44 named with size 36: ",
        &log,
        &bundle,
    )?;
    bundle[25] = 44;
    tell::check(rt, b"named with size 44: ", &log, &bundle)
}

pub fn damage(rt: &impl Print) -> io::Result<()> {
    let mut log = samples::overloads();
    log[36] = 0;
    let mut bundle = samples::shared();
    bundle[27] = 0;
    tell::check(
        rt,
        b"trouble at 0 in a log that is damaged at 36: ",
        &log,
        &bundle,
    )?;
    bundle[23] = 1;
    tell::check(rt, b"the same, with desk 1 after desk 1: ", &log, &bundle)
}
