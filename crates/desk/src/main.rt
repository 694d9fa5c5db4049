// Reads the files `log` and `bundle` of its folder and prints the verdict on them.
#![tactic(auto)]

fn main(rt: HostRuntime) {
    let mut log = input::buffer();
    let mut bundle = input::buffer();
    let first = input::read_file(&rt, b"log", &mut log);
    let second = input::read_file(&rt, b"bundle", &mut bundle);
    let mut line = [0u8; 64];
    let used = desk_text::judge(first, &log, second, &bundle, &mut line);
    // what can't be written is let go
    let _ = rt.write_all(&line[..used]);
}
