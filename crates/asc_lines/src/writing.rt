// The line of what is told, written to a buffer's end: each function puts its text before a place and answers where the
// text starts, the inner ones also how far before that can be. No line has more than 231 bytes, whatever is told; the
// longest that a record has are 134.
ghost use Rattle.std.specs.Prelude.{◌+◌, ◌≤◌, length};
ghost use Rattle.digits.specs.Text.{Said};
ghost use Rattle.asc_lines.specs.Lines.{head_of, id_of, frame_of, load_of, frames_of, counts_of, rest_of, line_of};

use crate::told::{Body, Counts, Frame, Head, Told, shown};

// `TIME CHANNEL`
fn put_head(h: Head, out: &mut [u8], end: usize) -> usize
    requires { (51 ≤ end) × (end ≤ length out.old) }
    ensures { Said result (head_of h) out.old out.new end }
{
    let a = digits::labelled(b" ", h.channel as u64, out, end);
    let b = digits::spell(h.nanos as u64, 10, 9, out, a);
    let c = digits::put(b".", out, b);
    digits::decimal(h.seconds, out, c)
}

// ` ID`
fn put_id(f: Frame, out: &mut [u8], end: usize) -> usize
    requires { (18 ≤ end) × (end ≤ length out.old) }
    ensures { Said result (id_of f) out.old out.new end × (end ≤ result + 18) }
{
    let mark: &[u8] = if f.extended { b"x" } else { b"" };
    let a = digits::put(mark, out, end);
    let b = digits::hex(f.id as u64, out, a);
    digits::put(b" ", out, b)
}

// ` Rx d DLC BYTES`
fn put_frame(f: Frame, out: &mut [u8], end: usize) -> usize
    requires { (50 ≤ end) × (end ≤ length out.old) }
    ensures { Said result (frame_of f) out.old out.new end × (end ≤ result + 50) }
{
    let sort = if f.remote { b" r " } else { b" d " };
    let way = if f.sent { b" Tx" } else { b" Rx" };
    let bytes = &f.bytes[..shown(f.remote, f.dlc)];
    let a = digits::put_pairs(bytes, out, end);
    let b = digits::decimal(f.dlc as u64, out, a);
    let c = digits::put(sort, out, b);
    digits::put(way, out, c)
}

// ` B p.pp%`
fn put_load(load: u16, out: &mut [u8], end: usize) -> usize
    requires { (27 ≤ end) × (end ≤ length out.old) }
    ensures { Said result (load_of load) out.old out.new end × (end ≤ result + 27) }
{
    let a = digits::put(b"%", out, end);
    let b = digits::spell(load as u64 % 100, 10, 2, out, a);
    let c = digits::put(b".", out, b);
    digits::labelled(b" B ", load as u64 / 100, out, c)
}

// ` Statistic: D n R n XD n XR n`
fn put_frames(c: Counts, out: &mut [u8], end: usize) -> usize
    requires { (105 ≤ end) × (end ≤ length out.old) }
    ensures { Said result (frames_of c) out.old out.new end × (end ≤ result + 105) }
{
    let xr = digits::labelled(b" XR ", c.extended_remote as u64, out, end);
    let xd = digits::labelled(b" XD ", c.extended_data as u64, out, xr);
    let r = digits::labelled(b" R ", c.standard_remote as u64, out, xd);
    digits::labelled(b" Statistic: D ", c.standard_data as u64, out, r)
}

// ` Statistic: D n R n XD n XR n E n O n B p.pp%`
fn put_counts(c: Counts, out: &mut [u8], end: usize) -> usize
    requires { (178 ≤ end) × (end ≤ length out.old) }
    ensures { Said result (counts_of c) out.old out.new end × (end ≤ result + 178) }
{
    let b = put_load(c.load, out, end);
    let o = digits::labelled(b" O ", c.overloads as u64, out, b);
    let e = digits::labelled(b" E ", c.errors as u64, out, o);
    put_frames(c, out, e)
}

// What stands behind the channel.
fn put_rest(body: Body, out: &mut [u8], end: usize) -> usize
    requires { (178 ≤ end) × (end ≤ length out.old) }
    ensures { Said result (rest_of body) out.old out.new end × (end ≤ result + 178) }
{
    match body {
        Body::Message(frame) => {
            let a = put_frame(frame, out, end);
            put_id(frame, out, a)
        }
        Body::Overload => digits::put(b" OverloadFrame", out, end),
        Body::Statistic(counts) => put_counts(counts, out, end),
    }
}

// The line of what is told.
pub fn put_line(t: Told, out: &mut [u8]) -> usize
    requires { 231 ≤ length out.old }
    ensures { Said result (line_of t) out.old out.new (length out.old) }
{
    let end = out.len();
    let a = digits::put(b"\r\n", out, end);
    let b = put_rest(t.body, out, a);
    put_head(t.head, out, b)
}
