// What the lister prints, made in a buffer, and the lines that the desk program prints.
#![tactic(auto)]

mod words;

ghost use Rattle.std.specs.Prelude.{◌+◌, ◌*◌, ◌≤◌, length};
ghost use Rattle.input.specs.Zeros.{Zeros};
ghost use Rattle.input.specs.Taken.{Within};
ghost use Rattle.listing.specs.Text.{Said};
ghost use Rattle.listing.specs.Listing.{listing_of, page_of, report_of};

use objects::Cursor;
pub use words::{accepted_line, put, refused_line};
use words::{end_line, object_line};

// Room for every report: four bytes for each byte of the log, and the last line.
pub fn page() -> [u8; 262208]
    ensures { Zeros 262208 result }
{
    [0; 262208]
}

// The whole listing of a log, from the buffer's first byte on; it answers where it ends.
fn list(log: &[u8], out: &mut [u8]) -> usize
    requires { 4 * length log.now + 64 ≤ length out.old }
    ensures { Said 0 (listing_of log.now) out.old out.new result }
{
    let mut c = Cursor::new();
    let mut n: u64 = 0;
    let mut used = 0;
    loop {
        let step = c.step(log);
        match step.answer {
            Ok(Some(object)) => {
                used = object_line(
                    object.start as u64,
                    object.size as u64,
                    object.kind as u64,
                    out,
                    used,
                );
                n += 1;
                c = step.next;
            }
            Ok(None) => return end_line(log.len() as u64, n, out, used),
            Err(refusal) => {
                return refused_line(refusal.number() as u64, refusal.place() as u64, out, used);
            }
        }
    }
}

// What the lister prints for a log, of which a byte past the limit is enough.
fn page_of(log: &[u8], out: &mut [u8]) -> usize
    requires { 262208 ≤ length out.old }
    ensures { Said 0 (page_of log.now) out.old out.new result }
{
    if input::LIMIT < log.len() {
        return put(b"too long\n", out, 0);
    }
    list(log, out)
}

// What the lister prints for what came of reading into a buffer.
pub fn report(got: Option<usize>, buf: &[u8], out: &mut [u8]) -> usize
    requires { Within got buf.now × (262208 ≤ length out.old) }
    ensures { Said 0 (report_of got buf.now) out.old out.new result }
{
    match got {
        Some(n) => page_of(&buf[..n], out),
        None => put(b"no file\n", out, 0),
    }
}
