// LIN wake-up 2, type 62.
#![tactic(auto, unfolding(outcomes::specs::Reads::record_in))]

ghost use Rattle.std.specs.Prelude.{◌≡◌};
ghost use Rattle.headers.specs.Types.{wake_up};
ghost use Rattle.objects.specs.Items.{known};
ghost use Rattle.outcomes.specs.Reads.{record_in, Reads};
ghost use Rattle.outcomes.specs.Writes.{Outcome};

use headers::Refusal;
use objects::Cursor;
use outcomes::Read;

// The wake-up that an object's bytes are: zeros where they are too few.
pub fn wake_up_in(o: &[u8]) -> lin::WakeUp
    ensures { result ≡ record_in wake_up o.now }
{
    outcomes::record_in(o)
}

// The wake-up at the cursor.
pub fn read_wake_up(log: &[u8], c: Cursor) -> Read<lin::WakeUp>
    ensures { Reads wake_up log.now c.at result.told result.next result.value }
{
    outcomes::read_record(log, c)
}

// Writes a wake-up with its padding to the front of `out`.
pub fn write_wake_up(r: lin::WakeUp, out: &mut [u8]) -> Result<usize, Refusal>
    ensures { Outcome (known wake_up r) result out.old out.new }
{
    outcomes::write_record(r, out)
}
