// The one pass over the log, with the slips beside it.
ghost use Rattle.std.specs.Prelude.{◌≡◌};
ghost use Rattle.slips.specs.Check.{check_of};
ghost use Rattle.slips.specs.Inner.Rests.{slips_at};
ghost use Rattle.slips.specs.Inner.Pass.{at_end_of, merge_log_of};

use crate::left::Slips;
use headers::{Fault, Refusal};
use objects::{Cursor, Entry};

// The most bytes that a log may have.
const LONGEST: usize = 4294967295;

// Behind the log's last object: above every start that an entry can hold.
const END: Entry = Entry {
    start: LONGEST + 1,
    size: 0,
    kind: 0,
};

// Behind the last of n objects: an entry that is left is stray.
#[tactic(auto, unfolding(crate::specs::Inner::Pass::at_end_of))]
fn at_end(slips: Slips<'_>, n: usize) -> Result<usize, Refusal>
    ensures { result ≡ at_end_of (slips_at slips.entry) n }
{
    match slips.advance(END).low {
        Some(start) => Err(Fault::Stray.at(start)),
        None => Ok(n),
    }
}

// The walk and the merge together: how many objects there are, or the first refusal.
#[tactic(auto, using(crate::proofs::Loops::MergingLog::stepped, crate::proofs::Loops::MergingLog::merge_refused, crate::proofs::Loops::MergingLog::merge_end, crate::proofs::Loops::MergingLog::merging_less))]
fn merge_log(log: &[u8], slips: Slips<'_>) -> Result<usize, Refusal>
    ensures { result ≡ merge_log_of log.now (slips_at slips.entry) }
{
    let mut c = Cursor::new();
    let mut rest = slips;
    let mut n = 0;
    loop {
        let step = c.step(log);
        let Some(object) = step.answer? else {
            return at_end(rest, n);
        };
        let merged = rest.advance(object);
        if let Some(trouble) = merged.trouble(object.start) {
            // It is told where the log behind it is well formed.
            step.next.walk(log)?;
            return Err(trouble);
        }
        rest = merged.slips;
        n += 1;
        c = step.next;
    }
}

// Whether the slips of the bundle name the objects of the log, each exactly once: how many objects there are, or what
// refuses. Writes nothing.
#[tactic(auto, using(crate::proofs::Loops::Checking::long_refused, crate::proofs::Loops::Checking::read_refused, crate::proofs::Loops::Checking::read_merged))]
pub fn check(log: &[u8], bundle: &[u8]) -> Result<usize, Refusal>
    ensures { result ≡ check_of log.now bundle.now }
{
    if LONGEST < log.len() {
        return Err(Fault::Long.at(0));
    }
    match Slips::read(bundle) {
        Ok(slips) => merge_log(log, slips),
        Err(refusal) => Err(refusal),
    }
}
