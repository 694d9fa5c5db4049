// Answers the cases of docs/src/examples/compare_requests, whose main.rs says what they are: they come from standard
// input, the replies go to standard output.
#![tactic(auto)]

mod lines;
mod rings;
mod stream;
mod told;
mod trays;

fn main(rt: HostRuntime) {
    stream::serve(&mut rt.stdin(), &rt, 1000000);
}
