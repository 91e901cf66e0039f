// What a refusal says: which row of "Answers by number" it is, and the place (document 01; of a shelf, document 02, Wish 2).
ghost use Rattle.std.specs.Prelude.{◌≡◌};
ghost use Rattle.document.specs.Refusals.{number_of};

use std::error::Error;
use std::fmt;

// In the order of their numbers.
#[derive(Clone, Copy, Debug, PartialEq, Eq)]
pub enum Reason {
    Unasked, // what no public call lends: words of another number, more taken than there is, a place behind the text
    TooLong,
    NotOneObject,
    TooDeep,
    WrongKind,
    UnknownName,
    NameTwice,
    Missing,
    NotCarried,
    OutOfRange,
    TypeNotAllowed,
    WrongCount,
    WrongOrder,
    NotADate,
    SequenceTooDeep,
    TooManyRecords,
    NoTextRoom,
    WrongUse,
    NotReadable,
    BufferTooShort,
    NoShelf,
    NoNumber,
    NumberTaken,
    NumberMissing,
    NoShelfRoom,
}

impl Reason {
    pub fn number(self) -> u8
        ensures { result ≡ number_of self }
    {
        self as u8
    }
}

// Why, and where.
#[derive(Clone, Copy, Debug, PartialEq, Eq)]
pub struct Refusal(pub Reason, pub usize);

impl fmt::Display for Refusal {
    fn fmt<W: fmt::Write>(&self, f: &mut fmt::Formatter<W>) -> fmt::Result {
        let number = self.0.number();
        write!(f, "refused {number} {}", self.1)
    }
}

impl Error for Refusal {}
