// Answers the cases of docs/src/examples/compare: the stream comes from standard input, the replies go to standard
// output.
#![tactic(auto)]

mod can_sheet;
mod ethernet_sheet;
mod flexray_sheet;
mod lin_sheet;
mod reading;
mod sheet;
mod stream;

fn main(rt: HostRuntime) {
    stream::serve(&mut rt.stdin(), &rt, 1000000);
}
