// Prints an example's words and what came out.
use objects::{Cursor, Entry, Refusal};
use outcomes::Found;
use ring::Part;
use std::io;

// How many of something there are.
fn count(rt: &impl Print, words: &[u8], n: Result<usize, Refusal>, of: &str) -> io::Result<()> {
    rt.write_all(words)?;
    match n {
        Ok(n) => println!(rt; "{n} {of}"),
        Err(refusal) => println!(rt; "{refusal}"),
    }
}

// What a walk of the log answers.
pub fn walk(rt: &impl Print, words: &[u8], log: &[u8]) -> io::Result<()> {
    count(rt, words, objects::walk(log), "objects")
}

// The same of the log's first n bytes.
pub fn walk_first(rt: &impl Print, words: &[u8], log: &[u8], n: usize) -> io::Result<()> {
    if n <= log.len() {
        return walk(rt, words, &log[..n]);
    }
    Ok(())
}

// An object: its type, its start, its size.
fn object(rt: &impl Print, o: Entry) -> io::Result<()> {
    println!(rt; "type {} at {}, size {}", o.kind, o.start, o.size)
}

// What a step at a position answers.
pub fn step(rt: &impl Print, words: &[u8], log: &[u8], at: usize) -> io::Result<()> {
    rt.write_all(words)?;
    let c = Cursor { at };
    match c.step(log).answer {
        Ok(Some(o)) => object(rt, o),
        Ok(None) => println!(rt; "done"),
        Err(refusal) => println!(rt; "{refusal}"),
    }
}

// What a step at a position answers where the log is cut in two, with a scratch of so many bytes, 64 at most; of an
// object also where it lies.
pub fn ring_step(
    rt: &impl Print,
    words: &[u8],
    log: &[u8],
    cut: usize,
    at: usize,
    room: usize,
) -> io::Result<()> {
    let mut scratch = [0u8; 64];
    if log.len() < cut {
        return Ok(());
    }
    if 64 < room {
        return Ok(());
    }
    rt.write_all(words)?;
    let step = ring::step(
        &log[..cut],
        &log[cut..],
        Cursor { at },
        &mut scratch[..room],
    );
    match step.answer {
        Ok(Some(found)) => {
            let segment = match found.lies {
                Part::First => "first",
                Part::Second => "second",
                Part::Both => "copied",
            };
            print!(rt; "{segment}, ")?;
            object(rt, found.object)
        }
        Ok(None) => println!(rt; "done"),
        Err(refusal) => println!(rt; "{refusal}"),
    }
}

// What the read of one type is told.
pub fn read(rt: &impl Print, words: &[u8], told: Result<Found, Refusal>) -> io::Result<()> {
    rt.write_all(words)?;
    match told {
        Ok(Found::Record) => println!(rt; "read"),
        Ok(Found::Other) => println!(rt; "other"),
        Ok(Found::Done) => println!(rt; "done"),
        Err(refusal) => println!(rt; "{refusal}"),
    }
}

// What a write answers.
pub fn write(rt: &impl Print, words: &[u8], written: Result<usize, Refusal>) -> io::Result<()> {
    count(rt, words, written, "bytes used")
}
