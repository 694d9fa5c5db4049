// FlexRay receive, type 50.
#![tactic(auto, unfolding(outcomes::specs::Reads::record_in))]

ghost use Rattle.std.specs.Prelude.{◌≡◌};
ghost use Rattle.headers.specs.Types.{receive};
ghost use Rattle.objects.specs.Items.{known};
ghost use Rattle.outcomes.specs.Reads.{record_in, Reads};
ghost use Rattle.outcomes.specs.Writes.{Outcome};

use headers::Refusal;
use objects::Cursor;
use outcomes::Read;

// The FlexRay receive that an object's bytes are: zeros where they are too few.
pub fn receive_in(o: &[u8]) -> flexray::Receive
    ensures { result ≡ record_in receive o.now }
{
    outcomes::record_in(o)
}

// The FlexRay receive at the cursor.
pub fn read_receive(log: &[u8], c: Cursor) -> Read<flexray::Receive>
    ensures { Reads receive log.now c.at result.told result.next result.value }
{
    outcomes::read_record(log, c)
}

// Writes a FlexRay receive with its padding to the front of `out`.
pub fn write_receive(r: flexray::Receive, out: &mut [u8]) -> Result<usize, Refusal>
    ensures { Outcome (known receive r) result out.old out.new }
{
    outcomes::write_record(r, out)
}
