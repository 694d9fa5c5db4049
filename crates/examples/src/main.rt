// Runs document 01's examples of reading and writing that are not marked, and those of W-202, W-204 to W-206 and
// W-208, over the proved calls, and prints what came out: a line an example. Those of slips, frames and foreign objects
// stand in `slip_examples`.
#![tactic(auto)]

mod can_fd;
mod left_over;
mod reading;
mod samples;
mod second_header;
mod tell;
mod two_segments;
mod which_byte;
mod writing;

use std::io;

fn main(rt: HostRuntime) -> io::Result<()> {
    reading::positions(&rt)?;
    reading::heads(&rt)?;
    reading::ends(&rt)?;
    reading::padding(&rt)?;
    reading::contents(&rt)?;
    reading::frames(&rt)?;
    reading::foreigners(&rt)?;
    reading::tails(&rt)?;
    reading::counts(&rt)?;
    reading::records(&rt)?;
    writing::units(&rt)?;
    writing::rooms(&rt)?;
    writing::counts(&rt)?;
    writing::orders(&rt)?;
    second_header::sizes(&rt)?;
    second_header::pairs(&rt)?;
    second_header::reserved(&rt)?;
    second_header::frames(&rt)?;
    second_header::rooms(&rt)?;
    left_over::foreigners(&rt)?;
    left_over::one_over(&rt)?;
    left_over::three_over(&rt)?;
    left_over::rooms(&rt)?;
    left_over::python_can(&rt)?;
    which_byte::fields(&rt)?;
    which_byte::reserved(&rt)?;
    which_byte::both_reserved(&rt)?;
    which_byte::padding(&rt)?;
    which_byte::lengths(&rt)?;
    which_byte::counts(&rt)?;
    two_segments::cuts(&rt)?;
    two_segments::orders(&rt)?;
    two_segments::padding(&rt)?;
    can_fd::reading(&rt)?;
    can_fd::sizes(&rt)?;
    can_fd::writing(&rt)?;
    can_fd::message_two(&rt)
}
