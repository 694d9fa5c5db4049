// Prints an example's words and what came out.
use headers::Refusal;
use std::io;
use tray::Trayed;

// What the check answers.
pub fn check(rt: &impl Print, words: &[u8], log: &[u8], bundle: &[u8]) -> io::Result<()> {
    rt.write_all(words)?;
    match slips::check(log, bundle) {
        Ok(n) => println!(rt; "accepted {n}"),
        Err(refusal) => println!(rt; "{refusal}"),
    }
}

// What a write answers.
pub fn write(rt: &impl Print, words: &[u8], written: Result<usize, Refusal>) -> io::Result<()> {
    rt.write_all(words)?;
    match written {
        Ok(n) => println!(rt; "{n} bytes used"),
        Err(refusal) => println!(rt; "{refusal}"),
    }
}

// How many messages of a tray were written, and what refused the next.
pub fn tray(rt: &impl Print, words: &[u8], t: Trayed) -> io::Result<()> {
    rt.write_all(words)?;
    print!(rt; "written {}", t.written)?;
    match t.answer {
        Ok(()) => println!(rt; ""),
        Err(refusal) => println!(rt; ", {refusal}"),
    }
}
