// The bundle: where its slips stand, or the first of 24 and 20 to 23 that refuses it.
ghost use Rattle.std.specs.Prelude.{◌≡◌, ◌/◌, length};
ghost use Rattle.headers.specs.Faults.{tested};
ghost use Rattle.slips.specs.Cut.{entries_in, rises_from, shape_ok, fault_of, cut_of};
ghost use Rattle.slips.specs.Inner.Inside.{Inside};
ghost use Rattle.slips.specs.Inner.Rests.{rest_at, read_at, filled};

use crate::left::Slips;
use headers::{Fault, Refusal};

// What is left of a slip: its next entry, and its end.
#[derive(Clone, Copy)]
pub struct Place {
    pub at: usize,
    pub end: usize,
}

impl Place {
    // A bundle has at most this many slips, and a place for each.
    pub const SLIPS: usize = 8;

    // The bytes from the next entry to the end.
    #[tactic(auto, unfolding(crate::specs::Inner::Rests::rest_at))]
    pub(crate) fn rest(self, bundle: &[u8]) -> &[u8]
        requires { Inside (length bundle.now) self }
        ensures { result.now ≡ rest_at bundle.now self }
    {
        &bundle[self.at..self.end]
    }
}

// Whether the starts of these entries rise strictly.
#[tactic(auto, using(crate::proofs::Format::Chunks::entries_chunk, crate::proofs::Format::Chunks::entries_none))]
fn rises(entries: &[u8]) -> bool
    ensures { result ≡ rises_from 0 (entries_in (length entries.now / 12) entries.now) }
{
    let mut least = 0;
    for entry in entries.chunks_exact(12) {
        let start = fields::get32_be(entry, 0) as usize;
        if start < least {
            return false;
        }
        least = start + 1;
    }
    true
}

// Whether what is left of a bundle begins with a slip's length and has that many bytes.
#[tactic(auto, unfolding(crate::specs::Cut::shape_ok))]
fn shape_ok(t: &[u8]) -> bool
    ensures { result ≡ shape_ok t.now }
{
    if t.len() < 4 {
        return false;
    }
    let n = fields::get32_be(t, 0) as usize;
    n >= 2 && (n - 2) % 12 == 0 && 4 + n <= t.len()
}

// What refuses the slip that what is left of a bundle begins with: 20, 21, 22 or 23. Its desk must be at least this.
#[tactic(auto, using(crate::proofs::Format::SlipFaults::shaped, crate::proofs::Format::SlipFaults::shape_long, crate::proofs::Format::SlipFaults::fault_order, crate::proofs::Format::SlipFaults::fault_nothing, crate::proofs::Format::Chunks::slip_tested), unfolding(crate::specs::Cut::fault_of, headers::specs::HeadTests::first))]
fn fault(t: &[u8], least: usize) -> Result<(), Fault>
    ensures { tested result ≡ fault_of t.now least }
{
    if !shape_ok(t) {
        return Err(Fault::Shape);
    }
    if t[4] != 1 {
        return Err(Fault::Version);
    }
    if (t[5] as usize) < least {
        return Err(Fault::Desk);
    }
    let end = 4 + fields::get32_be(t, 0) as usize;
    if !rises(&t[6..end]) {
        return Err(Fault::Order);
    }
    Ok(())
}

impl<'a> Slips<'a> {
    // The entries of a bundle's slips, or what refuses the bundle first.
    #[tactic(auto, using(crate::proofs::Loops::Cutting::cutting_none, crate::proofs::Loops::Cutting::room))]
    pub fn read(b: &'a [u8]) -> Result<Slips<'a>, Refusal>
        ensures { read_at result ≡ filled (cut_of b.now) }
    {
        let mut places = [Place { at: 0, end: 0 }; Place::SLIPS];
        let mut at = 0;
        let mut least = 0;
        for place in &mut places {
            if at == b.len() {
                break;
            }
            let t = &b[at..];
            if let Err(fault) = fault(t, least) {
                return Err(fault.at(at));
            }
            let end = at + (4 + fields::get32_be(t, 0) as usize);
            *place = Place { at: at + 6, end };
            least = t[5] as usize + 1;
            at = end;
        }
        if at < b.len() {
            return Err(Fault::Ninth.at(at));
        }
        Ok(Slips { bundle: b, places })
    }
}
