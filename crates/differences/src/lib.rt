// Two logs side by side, as two loggers on one bus wrote them: each object of one that is not the same in the other.
#![tactic(auto)]

mod turns;

ghost use Rattle.std.specs.Prelude.{◌≡◌};
ghost use Rattle.differences.specs.Columns.{columns};
ghost use Rattle.differences.specs.Comparing.{Compares};

use objects::{Fault, Refusal};
use turns::{count, fill};

// What refuses a comparison, and which log it is of.
#[derive(Clone, Copy)]
pub enum LogRefusal {
    First(Refusal),
    // Of the second log, where the first is well formed.
    Second(Refusal),
    // 10 at place 0: the shortest slice has fewer numbers than there are rows.
    Neither(Refusal),
}

// Lists in the lent slices, a row for each, the objects that differ and those that only one log has: the object's
// number from 0, its start in the first log, its start in the second, and 1 where bytes differ, 2 where only the first
// log has it, 3 where only the second has. Where a log has no such object its length stands for the start. Answers how
// many rows stand at the front of each slice. After a refusal the slices are as they were, and so are the numbers
// behind the rows.
#[tactic(auto, unfolding(crate::specs::Columns::room))]
pub fn compare(
    first: &[u8],
    second: &[u8],
    numbers: &mut [u64],
    firsts: &mut [u64],
    seconds: &mut [u64],
    kinds: &mut [u64],
) -> Result<usize, LogRefusal>
    ensures { Compares first.now second.now result
        (columns numbers.old firsts.old seconds.old kinds.old)
        (columns numbers.new firsts.new seconds.new kinds.new) }
{
    let rows = count(first, second)?;
    let left = numbers.len().min(firsts.len());
    let right = seconds.len().min(kinds.len());
    if left.min(right) < rows {
        return Err(LogRefusal::Neither(Fault::Room.at(0)));
    }
    fill(first, second, rows, numbers, firsts, seconds, kinds);
    Ok(rows)
}
