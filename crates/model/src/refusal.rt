//! Why a call is refused. The number of each refusal is fixed: other programs read it.
ghost use Rattle.std.specs.Prelude.{◌≡◌};
ghost use Rattle.model.specs.Refusals.{refusal_number};

use thiserror::Error;

/// Why a call is refused. It is displayed as the reason, for people.
#[derive(Clone, Copy, Debug, PartialEq, Eq, Error)]
pub enum Refusal {
    #[error("no entity stands under that number")]
    NotStanding = 1,
    #[error("that entity is an object, and only subjects hold tickets")]
    NotSubject = 2,
    #[error("the scheme has no such right")]
    UnknownRight = 3,
    #[error("the giver has no such ticket with the copy flag")]
    NotCopyable = 4,
    #[error("no link holds from the giver to the taker")]
    NoLink = 5,
    #[error("no link that holds passes this ticket")]
    NotPassed = 6,
    #[error("the scheme does not let this ticket be demanded")]
    NotDemandable = 7,
    #[error("the scheme has no rule for these parents and this type")]
    NoRule = 8,
    #[error("all rows are taken")]
    RowsTaken = 9,
    #[error("all numbers have been given")]
    NumbersSpent = 10,
    #[error("there is no room for another pair of holder and target")]
    PairsTaken = 11,
    #[error("the scheme has no such type")]
    UnknownKind = 12,
    #[error("that ticket is not held")]
    NotHeld = 13,
    #[error("a type of the scheme descends from itself")]
    Circle = 14,
    #[error("the work table has too few rows")]
    TableTooSmall = 15,
    #[error("the scheme file is faulty")]
    FaultyFile = 16,
    #[error("the lent memory does not fit")]
    UnfitMemory = 17,
}

impl Refusal {
    /// The refusal's fixed number.
    pub fn number(self) -> u8
        ensures { result ≡ refusal_number self }
    {
        self as u8
    }
}
