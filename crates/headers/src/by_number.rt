// What is asked by a type's number, whichever it is.
ghost use Rattle.std.specs.Prelude.{◌≡◌, ◌+◌};
ghost use Rattle.headers.specs.Format.{first_length};
ghost use Rattle.headers.specs.Rows.{row_of, allowed};

use crate::header::Header;
use crate::kind::Kind;

// Whether objects of the type may have a size, under the first header: a foreign type's may have every size from 16.
#[tactic(auto, using(crate::proofs::Allowed::foreign_from))]
pub fn allows(number: u32, size: u32) -> bool
    ensures { result ≡ allowed (row_of number) size }
{
    match Kind::of(number) {
        Some(kind) => kind.allows(size),
        None => size >= 16,
    }
}

// Whether they may have a body of `n` bytes, whatever the header before it.
#[tactic(auto, using(crate::proofs::Allowed::body_too_long))]
pub fn allows_body(number: u32, n: usize) -> bool
    ensures { result ≡ allowed (row_of number) (first_length + n) }
{
    n <= Header::MOST - Header::FIRST_LENGTH && allows(number, (Header::FIRST_LENGTH + n) as u32)
}
