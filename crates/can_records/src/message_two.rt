// CAN message 2, type 86.
#![tactic(auto, unfolding(outcomes::specs::Reads::record_in))]

ghost use Rattle.std.specs.Prelude.{◌≡◌};
ghost use Rattle.headers.specs.Types.{message_two};
ghost use Rattle.objects.specs.Items.{known};
ghost use Rattle.outcomes.specs.Reads.{record_in, Reads};
ghost use Rattle.outcomes.specs.Writes.{Outcome};

use headers::Refusal;
use objects::Cursor;
use outcomes::Read;

// The CAN message 2 that an object's bytes are: zeros where they are too few.
pub fn message_two_in(o: &[u8]) -> can::MessageTwo
    ensures { result ≡ record_in message_two o.now }
{
    outcomes::record_in(o)
}

// The message 2 at the cursor.
pub fn read_message_two(log: &[u8], c: Cursor) -> Read<can::MessageTwo>
    ensures { Reads message_two log.now c.at result.told result.next result.value }
{
    outcomes::read_record(log, c)
}

// Writes a message 2 with its padding to the front of `out`.
pub fn write_message_two(r: can::MessageTwo, out: &mut [u8]) -> Result<usize, Refusal>
    ensures { Outcome (known message_two r) result out.old out.new }
{
    outcomes::write_record(r, out)
}
