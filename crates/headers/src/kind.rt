// The thirteen types, with their numbers and sizes. Any other type is foreign.
ghost use Rattle.std.specs.Prelude.{◌≡◌, ◌+◌};
ghost use Rattle.headers.specs.Format.{first_length};
ghost use Rattle.headers.specs.Rows.{row_of, allowed};
ghost use Rattle.headers.specs.Named.{type_number, Names};
ghost use Rattle.headers.specs.TypeRows.{told};

use crate::header::Header;
use crate::types::{Row, TYPES};

#[derive(Clone, Copy, Debug, PartialEq, Eq)]
pub enum Kind {
    CanMessage,
    CanOverload,
    CanStatistic,
    FlexRayReceive,
    LinMessage,
    LinWakeUp,
    CanMessageTwo,
    CanFdMessage,
    EthernetStatus,
    EthernetFrame,
    ForwardedFrame,
    EthernetError,
    ForwardedError,
}

impl Kind {
    // The type of a number; none where it is foreign. The numbers from 120 on stand behind a test of their own: with all
    // in one run the compiler finds them by a jump through a table, which takes longer than the tests.
    #[inline(always)]
    pub fn of(number: u32) -> Option<Kind>
        ensures { Names result number }
    {
        let row = TYPES[0];
        if number == row.number {
            return Some(row.kind);
        }
        let row = TYPES[1];
        if number == row.number {
            return Some(row.kind);
        }
        let row = TYPES[2];
        if number == row.number {
            return Some(row.kind);
        }
        let row = TYPES[3];
        if number == row.number {
            return Some(row.kind);
        }
        let row = TYPES[4];
        if number == row.number {
            return Some(row.kind);
        }
        let row = TYPES[5];
        if number == row.number {
            return Some(row.kind);
        }
        let row = TYPES[6];
        if number == row.number {
            return Some(row.kind);
        }
        let row = TYPES[7];
        if number == row.number {
            return Some(row.kind);
        }
        let row = TYPES[8];
        if number == row.number {
            return Some(row.kind);
        }
        let row = TYPES[9];
        if number < row.number {
            return None;
        }
        if number == row.number {
            return Some(row.kind);
        }
        let row = TYPES[10];
        if number == row.number {
            return Some(row.kind);
        }
        let row = TYPES[11];
        if number == row.number {
            return Some(row.kind);
        }
        let row = TYPES[12];
        if number == row.number {
            return Some(row.kind);
        }
        None
    }

    pub fn number(self) -> u32
        ensures { result ≡ type_number self }
    {
        self.row().number
    }

    // A type's row. The table is read at known places alone: then no code builds it anew.
    #[tactic(auto, unfolding(crate::specs::Types::type_list, crate::specs::Rows::row_in))]
    fn row(self) -> Row
        ensures { told result ≡ row_of (type_number self) }
    {
        match self {
            Kind::CanMessage => TYPES[0],
            Kind::CanOverload => TYPES[1],
            Kind::CanStatistic => TYPES[2],
            Kind::FlexRayReceive => TYPES[3],
            Kind::LinMessage => TYPES[4],
            Kind::LinWakeUp => TYPES[5],
            Kind::CanMessageTwo => TYPES[6],
            Kind::CanFdMessage => TYPES[7],
            Kind::EthernetStatus => TYPES[8],
            Kind::EthernetFrame => TYPES[9],
            Kind::ForwardedFrame => TYPES[10],
            Kind::EthernetError => TYPES[11],
            Kind::ForwardedError => TYPES[12],
        }
    }

    // Whether its objects may have a size, under the first header.
    pub fn allows(self, size: u32) -> bool
        ensures { result ≡ allowed (row_of (type_number self)) size }
    {
        self.row().allows(size)
    }

    // Whether its objects may have a body of `n` bytes, whatever the header before it.
    pub fn allows_body(self, n: usize) -> bool
        ensures { result ≡ allowed (row_of (type_number self)) (first_length + n) }
    {
        n <= Header::MOST - Header::FIRST_LENGTH && self.allows((Header::FIRST_LENGTH + n) as u32)
    }
}
