// A text read as a line.
ghost use Rattle.std.specs.Prelude.{◌≤◌, ◌≡◌};
ghost use Rattle.asc_lines.specs.Reading.{head_in, head_end, frame_in, load_in, counts_in, possible_time, line_in};
ghost use Rattle.asc_lines.specs.Reading.{candidate as Reading·candidate};

use crate::told::{Body, Counts, Frame, Head, Told, shown};
use crate::writing::put_line;

// The head of a text, and the place behind it.
#[derive(Clone, Copy)]
struct HeadRead {
    head: Head,
    end: usize,
}

// `TIME CHANNEL`
fn read_head(s: &[u8]) -> HeadRead
    ensures { (result.head ≡ head_in s.now) × (result.end ≡ head_end s.now) × (result.end ≤ 31) }
{
    let a = digits::read_number(s, 0, 10, 15);
    let b = digits::read_number(s, a.end + 1, 10, 9);
    let c = digits::read_number(s, b.end + 1, 10, 5);
    let head = Head {
        seconds: a.value,
        nanos: b.value as u32,
        channel: (c.value % 65536) as u16,
    };
    HeadRead { head, end: c.end }
}

// ` ID Rx d DLC BYTES`
fn read_frame(s: &[u8], at: usize) -> Frame
    requires { at ≤ 31 }
    ensures { result ≡ frame_in s.now at }
{
    let id = digits::read_number(s, at + 1, 16, 8);
    let extended = digits::byte(s, id.end) == b'x';
    let mid = id.end + usize::from(extended);
    let sent = digits::byte(s, mid + 1) == b'T';
    let remote = digits::byte(s, mid + 4) == b'r';
    let dlc = digits::read_number(s, mid + 6, 10, 3);
    let length = (dlc.value % 256) as u8;
    let bytes = digits::get_pairs(shown(remote, length), s, dlc.end);
    Frame {
        id: (id.value % 2147483648) as u32,
        extended,
        sent,
        remote,
        dlc: length,
        bytes,
    }
}

// ` B p.pp%`
fn read_load(s: &[u8], at: usize) -> u16
    requires { at ≤ 131 }
    ensures { result ≡ load_in s.now at }
{
    let whole = digits::read_number(s, at + 3, 10, 3);
    let part = digits::read_number(s, whole.end + 1, 10, 2);
    ((100 * whole.value + part.value) % 65536) as u16
}

// ` Statistic: D n R n XD n XR n E n O n B p.pp%`
fn read_counts(s: &[u8], at: usize) -> Counts
    requires { at ≤ 31 }
    ensures { result ≡ counts_in s.now at }
{
    let d = digits::read_number(s, at + 14, 10, 10);
    let r = digits::read_number(s, d.end + 3, 10, 10);
    let xd = digits::read_number(s, r.end + 4, 10, 10);
    let xr = digits::read_number(s, xd.end + 4, 10, 10);
    let e = digits::read_number(s, xr.end + 3, 10, 10);
    let o = digits::read_number(s, e.end + 3, 10, 10);
    let load = read_load(s, o.end);
    Counts {
        load,
        standard_data: (d.value % 4294967296) as u32,
        extended_data: (xd.value % 4294967296) as u32,
        standard_remote: (r.value % 4294967296) as u32,
        extended_remote: (xr.value % 4294967296) as u32,
        errors: (e.value % 4294967296) as u32,
        overloads: (o.value % 4294967296) as u32,
    }
}

// What a text tells, if it is a line: an `O` or an `S` behind the channel says which.
fn candidate(s: &[u8]) -> Told
    ensures { result ≡ Reading·candidate s.now }
{
    let h = read_head(s);
    let body = match digits::byte(s, h.end + 1) {
        b'O' => Body::Overload,
        b'S' => Body::Statistic(read_counts(s, h.end)),
        _ => Body::Message(read_frame(s, h.end)),
    };
    Told { head: h.head, body }
}

// Whether a stamp of 64 bits has this time, in one of the two units.
#[tactic(auto, using(std::proofs::lemmas::Bool::Decides::nat_tests), unfolding(crate::specs::Reading::possible_time))]
fn possible(seconds: u64, nanos: u32) -> bool
    ensures { result ≡ possible_time seconds nanos }
{
    let over = nanos as u64;
    over < 1_000_000_000
        && (seconds <= (u64::MAX - over) / 1_000_000_000
            || over % 10_000 == 0 && seconds <= (u64::MAX - over / 10_000) / 100_000)
}

// What a line tells; none where the text is no line.
pub fn read(s: &[u8]) -> Option<Told>
    ensures { result ≡ line_in s.now }
{
    let told = candidate(s);
    if !possible(told.head.seconds, told.head.nanos) {
        return None;
    }
    let mut line = [0u8; 256];
    let n = put_line(told, &mut line);
    check::same(&line[n..], s).then_some(told)
}
