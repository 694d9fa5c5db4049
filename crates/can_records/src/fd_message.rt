// CAN FD, type 100.
#![tactic(auto, unfolding(outcomes::specs::Reads::record_in))]

ghost use Rattle.std.specs.Prelude.{◌≡◌};
ghost use Rattle.headers.specs.Types.{fd_message};
ghost use Rattle.objects.specs.Items.{known};
ghost use Rattle.outcomes.specs.Reads.{record_in, Reads};
ghost use Rattle.outcomes.specs.Writes.{Outcome};

use headers::Refusal;
use objects::Cursor;
use outcomes::Read;

// The CAN FD message that an object's bytes are: zeros where they are too few.
pub fn fd_message_in(o: &[u8]) -> can::FdMessage
    ensures { result ≡ record_in fd_message o.now }
{
    outcomes::record_in(o)
}

// The CAN FD message at the cursor.
pub fn read_fd_message(log: &[u8], c: Cursor) -> Read<can::FdMessage>
    ensures { Reads fd_message log.now c.at result.told result.next result.value }
{
    outcomes::read_record(log, c)
}

// Writes a CAN FD message with its padding to the front of `out`.
pub fn write_fd_message(r: can::FdMessage, out: &mut [u8]) -> Result<usize, Refusal>
    ensures { Outcome (known fd_message r) result out.old out.new }
{
    outcomes::write_record(r, out)
}
