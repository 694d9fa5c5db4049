// CAN overload, type 3.
#![tactic(auto, unfolding(outcomes::specs::Reads::record_in))]

ghost use Rattle.std.specs.Prelude.{◌≡◌};
ghost use Rattle.headers.specs.Types.{overload};
ghost use Rattle.objects.specs.Items.{known};
ghost use Rattle.outcomes.specs.Reads.{record_in, Reads};
ghost use Rattle.outcomes.specs.Writes.{Outcome};

use headers::Refusal;
use objects::Cursor;
use outcomes::Read;

// The overload that an object's bytes are: zeros where they are too few.
pub fn overload_in(o: &[u8]) -> can::Overload
    ensures { result ≡ record_in overload o.now }
{
    outcomes::record_in(o)
}

// The overload at the cursor.
pub fn read_overload(log: &[u8], c: Cursor) -> Read<can::Overload>
    ensures { Reads overload log.now c.at result.told result.next result.value }
{
    outcomes::read_record(log, c)
}

// Writes an overload with its padding to the front of `out`.
pub fn write_overload(r: can::Overload, out: &mut [u8]) -> Result<usize, Refusal>
    ensures { Outcome (known overload r) result out.old out.new }
{
    outcomes::write_record(r, out)
}
