// A turn is a step in each log. One pass of turns counts the rows; where they have room, a second lists them.
ghost use Rattle.std.specs.Prelude.{◌≡◌, ◌<◌, ◌≤◌, Err, [], ◌∷◌};
ghost use Rattle.differences.specs.Answers.{Rows};
ghost use Rattle.differences.specs.Rows.{row, rows_of};
ghost use Rattle.differences.specs.Columns.{columns, room, listed_at};
ghost use Rattle.differences.specs.Turns.{Stepped, number_of, pair_of, turn_of, foremost, count_of};

use crate::LogRefusal;
use objects::{Cursor, Entry, Refusal};

// The kinds of rows.
#[derive(Clone, Copy)]
pub enum Kind {
    BytesDiffer = 1,
    OnlyFirst = 2,
    OnlySecond = 3,
}

impl Kind {
    // The number that a row tells.
    fn number(self) -> u64
        ensures { result ≡ number_of self }
    {
        self as u64
    }
}

// The object's number from 0, where it starts in the first log and in the second, and the kind.
#[derive(Clone, Copy)]
pub struct Row {
    pub number: usize,
    pub first: usize,
    pub second: usize,
    pub kind: Kind,
}

// What two steps have found.
#[derive(Clone, Copy)]
pub enum Pair {
    // Two objects, byte for byte the same.
    Equal,
    // Two objects that differ, or one alone.
    Row(Kind),
    // Both logs are at their end.
    End,
}

// What was found, or which log is refused, and where each log goes on.
#[derive(Clone, Copy)]
pub struct Turn {
    pub pair: Result<Pair, LogRefusal>,
    pub first: Cursor,
    pub second: Cursor,
}

// What two steps have found, of which the first log's refusal comes before all else.
fn pair_of(
    first: &[u8],
    second: &[u8],
    one: Result<Option<Entry>, Refusal>,
    other: Result<Option<Entry>, Refusal>,
) -> Result<Pair, LogRefusal>
    requires { Stepped first.now one × Stepped second.now other }
    ensures { result ≡ pair_of first.now second.now one other }
{
    match (one, other) {
        (Err(refusal), _) => Err(LogRefusal::First(refusal)),
        (Ok(_), Err(refusal)) => Err(LogRefusal::Second(refusal)),
        (Ok(Some(o)), Ok(Some(p))) => {
            if fields::same(
                &first[o.start..o.start + o.size],
                &second[p.start..p.start + p.size],
            ) {
                return Ok(Pair::Equal);
            }
            Ok(Pair::Row(Kind::BytesDiffer))
        }
        (Ok(Some(_)), Ok(None)) => Ok(Pair::Row(Kind::OnlyFirst)),
        (Ok(None), Ok(Some(_))) => Ok(Pair::Row(Kind::OnlySecond)),
        (Ok(None), Ok(None)) => Ok(Pair::End),
    }
}

// A step in each log.
#[tactic(auto, unfolding(crate::specs::Turns::turn_of))]
fn take_turn(first: &[u8], c: Cursor, second: &[u8], d: Cursor) -> Turn
    ensures { result ≡ turn_of first.now c.at second.now d.at }
{
    let a = c.step(first);
    let b = d.step(second);
    Turn {
        pair: pair_of(first, second, a.answer, b.answer),
        first: a.next,
        second: b.next,
    }
}

// The refusal of the first log from a cursor on comes before this one, if it is of the second.
fn foremost(first: &[u8], from: Cursor, refusal: LogRefusal) -> LogRefusal
    ensures { Err result ≡ foremost first.now from.at refusal }
{
    let LogRefusal::Second(second) = refusal else {
        return refusal;
    };
    let mut c = from;
    loop {
        let step = c.step(first);
        match step.answer {
            Ok(Some(_)) => c = step.next,
            Ok(None) => return LogRefusal::Second(second),
            Err(refusal) => return LogRefusal::First(refusal),
        }
    }
}

// How many rows there are, or the first refusal.
pub(crate) fn count(first: &[u8], second: &[u8]) -> Result<usize, LogRefusal>
    ensures { result ≡ count_of first.now second.now }
{
    let mut c = Cursor::new();
    let mut d = Cursor::new();
    let mut rows: usize = 0;
    loop {
        let Turn {
            pair,
            first: next,
            second: after,
        } = take_turn(first, c, second, d);
        match pair {
            Ok(Pair::Equal) => {}
            Ok(Pair::Row(_)) => rows += 1,
            Ok(Pair::End) => return Ok(rows),
            Err(refusal) => return Err(foremost(first, next, refusal)),
        }
        c = next;
        d = after;
    }
}

// Lists one row at a place of the slices.
#[tactic(auto, unfolding(crate::specs::Columns::room, crate::specs::Columns::listed_at))]
fn put_row(
    numbers: &mut [u64],
    firsts: &mut [u64],
    seconds: &mut [u64],
    kinds: &mut [u64],
    i: usize,
    r: Row,
)
    requires { i < room (columns numbers.old firsts.old seconds.old kinds.old) }
    ensures { columns numbers.new firsts.new seconds.new kinds.new
        ≡ listed_at i (row r.number r.first r.second (number_of r.kind) ∷ [])
        (columns numbers.old firsts.old seconds.old kinds.old) }
{
    numbers[i] = r.number as u64;
    firsts[i] = r.first as u64;
    seconds[i] = r.second as u64;
    kinds[i] = r.kind.number();
}

// Lists the rows of two well-formed logs, which are so many and have room.
pub(crate) fn fill(
    first: &[u8],
    second: &[u8],
    rows: usize,
    numbers: &mut [u64],
    firsts: &mut [u64],
    seconds: &mut [u64],
    kinds: &mut [u64],
)
    requires { (count_of first.now second.now ≡ Rows rows)
        × (rows ≤ room (columns numbers.old firsts.old seconds.old kinds.old)) }
    ensures { columns numbers.new firsts.new seconds.new kinds.new
        ≡ listed_at 0 (rows_of first.now second.now)
        (columns numbers.old firsts.old seconds.old kinds.old) }
{
    let mut c = Cursor::new();
    let mut d = Cursor::new();
    let mut n: usize = 0;
    let mut i: usize = 0;
    while i < rows {
        let t = take_turn(first, c, second, d);
        if let Ok(Pair::Row(kind)) = t.pair {
            let r = Row {
                number: n,
                first: c.at,
                second: d.at,
                kind,
            };
            put_row(numbers, firsts, seconds, kinds, i, r);
            i += 1;
        }
        n += 1;
        c = t.first;
        d = t.second;
    }
}
