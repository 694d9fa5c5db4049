// Runs document 01's examples of slips, and of writing frames and foreign objects, and W-207's of trays, and prints what
// came out: a line an example.
#![tactic(auto)]

mod samples;
mod slip;
mod tell;
mod trays;
mod writing;

use std::io;

fn main(rt: HostRuntime) -> io::Result<()> {
    slip::shapes(&rt)?;
    slip::desks(&rt)?;
    slip::ninth(&rt)?;
    slip::troubles(&rt)?;
    slip::headers(&rt)?;
    slip::damage(&rt)?;
    writing::frames(&rt)?;
    writing::foreigners(&rt)?;
    trays::rooms(&rt)?;
    trays::second_rooms(&rt)?;
    trays::apart(&rt)?;
    trays::orders(&rt)?;
    trays::nothing(&rt)
}
