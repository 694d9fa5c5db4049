// Examples of writing: 7, 9 and 10, and the order in which they are tried. Frames and 11 stand in `slip_examples`.
use crate::{samples, tell};
use std::io;

pub fn units(rt: &impl Print) -> io::Result<()> {
    let mut out = samples::room();
    let none = samples::put_overload(samples::header(0), &mut out);
    tell::write(rt, b"writing an overload with time unit 0: ", none)?;
    let some = samples::put_overload(samples::header(2), &mut out);
    tell::write(rt, b"writing an overload in nanoseconds: ", some)
}

pub fn rooms(rt: &impl Print) -> io::Result<()> {
    let mut short = [0u8; 35];
    let none = samples::put_overload(samples::header(2), &mut short);
    tell::write(rt, b"writing an overload into 35 bytes: ", none)?;
    let mut unpadded = [0u8; 331];
    let none = flexray_records::write_receive(samples::receive(2, 4, 4), &mut unpadded);
    tell::write(rt, b"writing a FlexRay receive into 331 bytes: ", none)?;
    let mut whole = [0u8; 332];
    let some = flexray_records::write_receive(samples::receive(2, 4, 4), &mut whole);
    tell::write(rt, b"writing a FlexRay receive into 332 bytes: ", some)
}

pub fn orders(rt: &impl Print) -> io::Result<()> {
    let mut short = [0u8; 10];
    let unit = flexray_records::write_receive(samples::receive(3, 10, 9), &mut short);
    tell::write(
        rt,
        b"writing data count 10 of 9 with time unit 3 into 10 bytes: ",
        unit,
    )?;
    let count = flexray_records::write_receive(samples::receive(2, 10, 9), &mut short);
    tell::write(rt, b"writing data count 10 of 9 into 10 bytes: ", count)
}

pub fn counts(rt: &impl Print) -> io::Result<()> {
    let mut out = samples::room();
    let all = flexray_records::write_receive(samples::receive(2, 254, 254), &mut out);
    tell::write(rt, b"writing data count 254 of 254: ", all)?;
    let above = flexray_records::write_receive(samples::receive(2, 255, 255), &mut out);
    tell::write(rt, b"writing data count 255 of 255: ", above)?;
    let more = flexray_records::write_receive(samples::receive(2, 10, 9), &mut out);
    tell::write(rt, b"writing data count 10 of 9: ", more)
}
