// LIN message 2, type 57.
#![tactic(auto, unfolding(outcomes::specs::Reads::record_in))]

ghost use Rattle.std.specs.Prelude.{◌≡◌};
ghost use Rattle.headers.specs.Types.{lin_message};
ghost use Rattle.objects.specs.Items.{known};
ghost use Rattle.outcomes.specs.Reads.{record_in, Reads};
ghost use Rattle.outcomes.specs.Writes.{Outcome};

use headers::Refusal;
use objects::Cursor;
use outcomes::Read;

// The LIN message that an object's bytes are: zeros where they are too few.
pub fn message_in(o: &[u8]) -> lin::Message
    ensures { result ≡ record_in lin_message o.now }
{
    outcomes::record_in(o)
}

// The LIN message at the cursor.
pub fn read_message(log: &[u8], c: Cursor) -> Read<lin::Message>
    ensures { Reads lin_message log.now c.at result.told result.next result.value }
{
    outcomes::read_record(log, c)
}

// Writes a LIN message with its padding to the front of `out`.
pub fn write_message(r: lin::Message, out: &mut [u8]) -> Result<usize, Refusal>
    ensures { Outcome (known lin_message r) result out.old out.new }
{
    outcomes::write_record(r, out)
}
