// What every listed type's record can do, so that calls are written once over any of them. What a type says of its own
// stands in the ghost members: the page of its bus's fields has each.
ghost use Rattle.std.specs.Prelude.{◌≡◌, ℕ, ◌+◌, ◌≤◌, Bool, true, List, length, leb};
ghost use Rattle.fields.specs.Rules.{Gap, shifted, blank, Rule, each_right};
ghost use Rattle.fields.specs.Written.{Wrote};
ghost use Rattle.fields.specs.Wrong as wrong;
ghost use Rattle.headers.specs.declared.header.Header.{Header};
ghost use Rattle.headers.specs.Faults.{tested};
ghost use Rattle.headers.specs.HeadTests.{first};
ghost use Rattle.headers.specs.declared.kind.Kind.{Kind};

use crate::header::Header;
use crate::kind::Kind;
use crate::refusal::Fault;

// A record, read and tested. A body is what stands behind the header: its offsets count from the header's end.
pub trait Record: Copy {
    // The length of the type's shortest body.
    ghost LENGTH: { ℕ };

    // The record of a header and a body.
    ghost of: { Header → List ℕ → Self };

    // 8: the reserved bytes of a body.
    ghost gaps: { List Gap };

    // 9: the rules on the content of a body.
    ghost rules: { List ℕ → List Rule };

    const LENGTH: usize;

    // The record of a header and a body.
    fn get(h: Header, b: &[u8]) -> Self
        requires { LENGTH ≤ length b.now }
        ensures { result ≡ of h b.now };

    // What refuses a body: 8 or 9.
    fn check(b: &[u8]) -> Result<(), Fault>
        requires { LENGTH ≤ length b.now }
        ensures { tested result ≡ first 8 (blank gaps b.now) (first 9 (each_right (rules b.now)) 0) };

    // The place of the first reserved byte that is not zero, or 0, in an object whose header is so long.
    fn wrong_byte(o: &[u8], head: usize) -> usize
        requires { head + LENGTH ≤ length o.now }
        ensures { result ≡ wrong.wrong_byte (shifted head gaps) o.now 0 };

    // The place in a body of the first field that breaks a rule, or 0.
    fn wrong_field(b: &[u8]) -> usize
        requires { LENGTH ≤ length b.now }
        ensures { result ≡ wrong.wrong_field (rules b.now) };

    // No type's shortest body is longer than FlexRay receive's.
    ghost short: { leb LENGTH 298 ≡ true };
}

// A record that holds its whole body: it is written with nothing lent beside it.
pub trait Whole: Record {
    // Its type.
    ghost KIND: { Kind };

    ghost header: { Self → Header };

    // The bytes of its body.
    ghost body: { Self → List ℕ };

    // 9: whether it keeps the rules that a record can break beside its size.
    ghost content: { Self → Bool };

    // What `put` asks of it.
    ghost writable: { Self → Bool };

    const KIND: Kind;

    fn header(self) -> Header
        ensures { result ≡ header self };

    // The length of its body.
    fn length(self) -> usize
        ensures { result ≡ length (body self) };

    fn content(self) -> bool
        ensures { result ≡ content self };

    // Its body, written at a place.
    fn put(self, out: &mut [u8], at: usize)
        requires { (at + length (body self) ≤ length out.old) × (writable self ≡ true) }
        ensures { Wrote at (body self) out.old out.new };

    ghost may_write: { (r : Self) → content r ≡ true → writable r ≡ true };
}
