// One object beside the slips: what each slip's next entry is to it, and the slips moved past it.
ghost use Rattle.std.specs.Prelude.{◌≡◌, ◌/◌, length};
ghost use Rattle.slips.specs.Cut.{entries_in};
ghost use Rattle.slips.specs.Inner.Rests.{slips_at};
ghost use Rattle.slips.specs.Inner.Merge.{compare_of, moved_of, hits_of, low_of, trouble_at, refused_by};

use crate::left::Slips;
use headers::{Fault, Refusal};
use objects::Entry;

// The next entry of a slip beside an object: it starts above it or there is none, it names it, or it is a stray.
#[derive(Clone, Copy)]
pub enum Compared {
    Miss,
    Hit,
    Stray(usize),
}

// The slips moved past an object: how many named it, and the lowest start of a stray.
#[derive(Clone, Copy)]
pub struct Merged<'a> {
    pub slips: Slips<'a>,
    pub hits: u32,
    pub low: Option<usize>,
}

impl Merged<'_> {
    // What is wrong at the object that starts here: a stray, or that it is named twice or not at all.
    pub fn trouble(&self, start: usize) -> Option<Refusal>
        ensures { result ≡ refused_by (trouble_at start self.now.low self.now.hits) }
    {
        match self.low {
            Some(stray) => Some(Fault::Stray.at(stray)),
            None => match self.hits {
                0 => Some(Fault::Unlisted.at(start)),
                1 => None,
                _ => Some(Fault::Twice.at(start)),
            },
        }
    }
}

// What the next entry of a slip is to this object: start, size and type are compared, as whole numbers.
#[tactic(auto, using(crate::proofs::Format::Chunks::entries_chunk, crate::proofs::Format::Chunks::entries_none))]
fn compare(slip: &[u8], object: Entry) -> Compared
    ensures { result ≡ compare_of object (entries_in (length slip.now / 12) slip.now) }
{
    if slip.len() < 12 {
        return Compared::Miss;
    }
    let start = fields::get32_be(slip, 0) as usize;
    if object.start < start {
        return Compared::Miss;
    }
    if start == object.start
        && fields::get32_be(slip, 4) as usize == object.size
        && fields::get32_be(slip, 8) == object.kind
    {
        return Compared::Hit;
    }
    Compared::Stray(start)
}

impl<'a> Slips<'a> {
    // The slips, each moved past its entry of this object.
    #[inline(always)]
    pub fn advance(self, object: Entry) -> Merged<'a>
        ensures moved { slips_at result.slips ≡ moved_of object (slips_at self.entry) }
        ensures hit { result.hits ≡ hits_of object (slips_at self.entry) }
        ensures lowest { result.low ≡ low_of object (slips_at self.entry) }
    {
        let bundle = self.bundle;
        let mut places = self.places;
        let mut hits = 0;
        let mut low = None;
        for place in &mut places {
            match compare(place.rest(bundle), object) {
                Compared::Miss => {}
                Compared::Hit => {
                    hits += 1;
                    place.at += 12;
                }
                Compared::Stray(start) => {
                    low = Some(low.map_or(start, |least: usize| least.min(start)));
                }
            }
        }
        Merged {
            slips: Slips { bundle, places },
            hits,
            low,
        }
    }
}
