// Whether an entry of a bundle ends past the log.
ghost use Rattle.std.specs.Prelude.{◌≡◌, ◌/◌, length};
ghost use Rattle.slips.specs.Cut.{entries_in};
ghost use Rattle.desk_text.specs.Outside.{past, outside_of, Cuts};

// Whether one of these entries does.
#[tactic(auto, using(slips::proofs::Format::Chunks::entries_chunk, slips::proofs::Format::Chunks::entries_none))]
fn past(entries: &[u8], len: usize) -> bool
    ensures { result ≡ past len (entries_in (length entries.now / 12) entries.now) }
{
    for entry in entries.chunks_exact(12) {
        let start = fields::get32_be(entry, 0) as usize;
        let size = fields::get32_be(entry, 4) as usize;
        if len < start + size {
            return true;
        }
    }
    false
}

// Whether an entry on one of the slips does.
#[tactic(auto, using(crate::proofs::Tests::testing_none, crate::proofs::Tests::tested, crate::proofs::Tests::turn_on))]
pub fn outside(b: &[u8], len: usize) -> bool
    requires { Cuts b.now }
    ensures { result ≡ outside_of len b.now }
{
    let mut rest = b;
    while !rest.is_empty() {
        let end = 4 + fields::get32_be(rest, 0) as usize;
        if past(&rest[6..end], len) {
            return true;
        }
        rest = &rest[end..];
    }
    false
}
