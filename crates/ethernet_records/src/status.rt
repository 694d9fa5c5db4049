// Ethernet status, type 103.
#![tactic(auto, unfolding(outcomes::specs::Reads::record_in))]

ghost use Rattle.std.specs.Prelude.{◌≡◌};
ghost use Rattle.headers.specs.Types.{ethernet_status};
ghost use Rattle.objects.specs.Items.{known};
ghost use Rattle.outcomes.specs.Reads.{record_in, Reads};
ghost use Rattle.outcomes.specs.Writes.{Outcome};

use headers::Refusal;
use objects::Cursor;
use outcomes::Read;

// The status that an object's bytes are: zeros where they are too few.
pub fn status_in(o: &[u8]) -> ethernet::Status
    ensures { result ≡ record_in ethernet_status o.now }
{
    outcomes::record_in(o)
}

// The status at the cursor.
pub fn read_status(log: &[u8], c: Cursor) -> Read<ethernet::Status>
    ensures { Reads ethernet_status log.now c.at result.told result.next result.value }
{
    outcomes::read_record(log, c)
}

// Writes a status with its padding to the front of `out`.
pub fn write_status(r: ethernet::Status, out: &mut [u8]) -> Result<usize, Refusal>
    ensures { Outcome (known ethernet_status r) result out.old out.new }
{
    outcomes::write_record(r, out)
}
