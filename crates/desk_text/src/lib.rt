// What the desk program prints for a log and a bundle, made in a buffer.
#![tactic(auto)]

mod outside;

ghost use Rattle.std.specs.Prelude.{◌≤◌, length};
ghost use Rattle.input.specs.Taken.{Within};
ghost use Rattle.listing.specs.Text.{Said};
ghost use Rattle.desk_text.specs.Desk.{verdict_of, judged_of, desk_of};

use listing::{accepted_line, put, refused_line};
use outside::outside;

#[tactic(auto, using(crate::proofs::Accepted::accepted_cuts), unfolding(crate::specs::Desk::verdict_of, listing::specs::Text::outside_line))]
fn verdict(log: &[u8], bundle: &[u8], out: &mut [u8]) -> usize
    requires { 64 ≤ length out.old }
    ensures { Said 0 (verdict_of log.now bundle.now) out.old out.new result }
{
    match slips::check(log, bundle) {
        Ok(_) if outside(bundle, log.len()) => put(b"outside\n", out, 0),
        Ok(n) => accepted_line(n as u64, out, 0),
        Err(refusal) => refused_line(refusal.number() as u64, refusal.place() as u64, out, 0),
    }
}

// What is printed for two files, of each of which a byte past the limit is enough.
#[tactic(auto, unfolding(crate::specs::Desk::judged_of, listing::specs::Text::too_long_text))]
fn judged(log: &[u8], bundle: &[u8], out: &mut [u8]) -> usize
    requires { 64 ≤ length out.old }
    ensures { Said 0 (judged_of log.now bundle.now) out.old out.new result }
{
    if input::LIMIT < log.len() || input::LIMIT < bundle.len() {
        return put(b"too long\n", out, 0);
    }
    verdict(log, bundle, out)
}

// What the desk program prints for what came of reading log and bundle into two buffers.
#[tactic(auto, unfolding(crate::specs::Desk::desk_of, listing::specs::Text::no_file))]
pub fn judge(
    first: Option<usize>,
    log: &[u8],
    second: Option<usize>,
    bundle: &[u8],
    out: &mut [u8],
) -> usize
    requires { Within first log.now × Within second bundle.now × (64 ≤ length out.old) }
    ensures { Said 0 (desk_of first log.now second bundle.now) out.old out.new result }
{
    match (first, second) {
        (Some(n), Some(m)) => judged(&log[..n], &bundle[..m], out),
        _ => put(b"no file\n", out, 0),
    }
}
