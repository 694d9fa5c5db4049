// Reads a log from standard input and prints its objects.
#![tactic(auto)]

fn main(rt: HostRuntime) {
    let mut input = input::buffer();
    let got = input::read_all(&mut rt.stdin(), &mut input);
    let mut page = listing::page();
    let used = listing::report(got, &input, &mut page);
    // what can't be written is let go
    let _ = rt.write_all(&page[..used]);
}
