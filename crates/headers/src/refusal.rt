// What refuses: one of document 01's refusals, and the byte at fault. Contracts see its number and its place.
ghost use Rattle.std.specs.Prelude.{◌≡◌, ◌++◌, Some, codes, decimal};
ghost use Rattle.headers.specs.Faults.{number_of};

use std::fmt;
use std::marker::Model;

// The refusals, by document 01's names and numbers.
#[derive(Clone, Copy, Debug, PartialEq, Eq)]
pub enum Fault {
    Head = 1,
    Signature = 2,
    Size = 3,
    Header = 4,
    Cut = 5,
    Padding = 6,
    Unit = 7,
    Reserved = 8,
    Content = 9,
    Room = 10,
    NotForeign = 11,
    Scratch = 12,
    Shape = 20,
    Version = 21,
    Desk = 22,
    Order = 23,
    Ninth = 24,
    Stray = 25,
    Twice = 26,
    Unlisted = 27,
    Long = 28,
    Line = 30,
    Tray = 31,
}

impl Fault {
    // Document 01's number.
    pub fn number(self) -> u32
        ensures { result ≡ number_of self }
    {
        self as u32
    }

    // The refusal at a place.
    pub fn at(self, place: usize) -> Refusal
        ensures { result ≡ record { number = number_of self; place = place } }
    {
        Refusal { fault: self, place }
    }
}

#[derive(Clone, Copy)]
pub struct Refusal {
    fault: Fault,
    place: usize,
}

impl Model for Refusal {
    ghost use Rattle.headers.specs.Refused.{Refused};

    ghost Value = { Refused };

    ghost use Rattle.headers.specs.Refusals.{told, back, back_is};

    ghost view = { told };

    ghost inverse = { back };

    ghost inverse_ok = { back_is };
}

impl Refusal {
    // Which refusal it is.
    pub fn fault(self) -> Fault
        ensures { number_of result ≡ self.number }
    {
        self.fault
    }

    // Document 01's number.
    pub fn number(self) -> u32
        ensures { result ≡ self.number }
    {
        self.fault.number()
    }

    // The byte at fault, or what stands for it.
    pub fn place(self) -> usize
        ensures { result ≡ self.place }
    {
        self.place
    }
}

// As `refused NUMBER at PLACE`.
impl fmt::Display for Refusal {
    ghost output = { λ r. Some (codes "refused " ++ (decimal r.number ++ (codes " at " ++ decimal r.place))) };

    fn fmt<W: fmt::Write>(&self, f: &mut fmt::Formatter<W>) -> fmt::Result {
        write!(f, "refused {} at {}", self.number(), self.place)
    }
}
