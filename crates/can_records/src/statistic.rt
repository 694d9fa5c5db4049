// CAN statistic, type 4.
#![tactic(auto, unfolding(outcomes::specs::Reads::record_in))]

ghost use Rattle.std.specs.Prelude.{◌≡◌};
ghost use Rattle.headers.specs.Types.{statistic};
ghost use Rattle.objects.specs.Items.{known};
ghost use Rattle.outcomes.specs.Reads.{record_in, Reads};
ghost use Rattle.outcomes.specs.Writes.{Outcome};

use headers::Refusal;
use objects::Cursor;
use outcomes::Read;

// The statistic that an object's bytes are: zeros where they are too few.
pub fn statistic_in(o: &[u8]) -> can::Statistic
    ensures { result ≡ record_in statistic o.now }
{
    outcomes::record_in(o)
}

// The statistic at the cursor.
pub fn read_statistic(log: &[u8], c: Cursor) -> Read<can::Statistic>
    ensures { Reads statistic log.now c.at result.told result.next result.value }
{
    outcomes::read_record(log, c)
}

// Writes a statistic with its padding to the front of `out`.
pub fn write_statistic(r: can::Statistic, out: &mut [u8]) -> Result<usize, Refusal>
    ensures { Outcome (known statistic r) result out.old out.new }
{
    outcomes::write_record(r, out)
}
