// The writing of an Ethernet record whose frame's bytes are lent, once for both records and their four types.
ghost use Rattle.std.specs.Prelude.{◌≡◌, length, leb};
ghost use Rattle.headers.specs.Types.{up_to, bodies_of};
ghost use Rattle.headers.specs.Named.{kind_of, type_number};
ghost use Rattle.ethernet.specs.Fields.{structure_length, longest_frame};
ghost use Rattle.outcomes.specs.Records.{WritesBy};

use ethernet::Lent;
use headers::{Kind, Refusal};

// A frame that is too long is refused by the type list's row.
pub(crate) fn write_as<R: Lent>(
    kind: Kind,
    r: R,
    lent: &[u8],
    out: &mut [u8],
) -> Result<usize, Refusal>
    requires { bodies_of (kind_of kind) ≡ up_to structure_length longest_frame }
    ensures { WritesBy (type_number kind) (R.header r) (leb (length lent.now) longest_frame) (R.body r lent.now) result out.old out.new }
{
    let h = r.header();
    let n = r.length(lent);
    outcomes::begin(out, kind, h, true, n)?;
    r.put(out, headers::length(h), lent);
    Ok(outcomes::pad(out, headers::size(h, n)))
}
