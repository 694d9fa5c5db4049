// ASC lines for CAN (W-201): the lines of the CAN records written, out of a log too, and a text read as a line.
#![tactic(auto)]

mod at_cursor;
mod numbers;
mod object;
mod record;
mod tells;

ghost use Rattle.std.specs.Prelude.{◌≡◌};
ghost use Rattle.asc.specs.Lines.{line_read};

use asc_lines::Told;
pub use at_cursor::{LineStep, line_at};
use headers::{Fault, Refusal};
pub use numbers::told_numbers;
pub use object::object_line;
pub use record::{message_line, overload_line, statistic_line};

// What a line tells, or 30 where the text is not exactly one line that the writers can write.
#[tactic(auto, unfolding(crate::specs::Lines::line_read))]
pub fn read_line(text: &[u8]) -> Result<Told, Refusal>
    ensures { result ≡ line_read text.now }
{
    asc_lines::read(text).ok_or(Fault::Line.at(0))
}
