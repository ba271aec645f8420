//! The types, rights and links of the card scheme: their numbers, and the words for types and rights.
ghost use Rattle.std.specs.Prelude.{◌≡◌, Some};
ghost use Rattle.model.specs.Tickets.{bit};
ghost use Rattle.scheme.specs.Card.{is_subject};
ghost use Rattle.scheme.specs.CardNames.{kind_number, right_number, kind_word, right_word, IsKind, IsRight, IsLink, kind_said, right_said};

use std::fmt;
use std::str::FromStr;
use thiserror::Error;

/// A number or a word for what the card scheme does not have.
#[derive(Clone, Copy, Debug, PartialEq, Eq, Error)]
pub enum Undeclared {
    #[error("the card scheme has no such type")]
    Kind,
    #[error("the card scheme has no such right")]
    Right,
    #[error("the card scheme has no such link")]
    Link,
}

/// A type of the card scheme. A card is the only object.
#[derive(Clone, Copy, Debug, PartialEq, Eq)]
pub enum CardKind {
    Person = 0,
    Folder = 1,
    Yard = 2,
    Card = 3,
}

impl CardKind {
    /// Whether entities of the type are subjects.
    pub fn is_subject(self) -> bool
        ensures { result ≡ is_subject (kind_number self) }
    {
        match self {
            CardKind::Person | CardKind::Folder | CardKind::Yard => true,
            CardKind::Card => false,
        }
    }
}

impl From<CardKind> for u8 {
    ghost from_gives = { λ kind n. n ≡ kind_number kind };

    fn from(value: CardKind) -> u8 {
        value as u8
    }
}

impl TryFrom<u8> for CardKind {
    type Error = Undeclared;

    ghost try_from_gives = { IsKind };

    fn try_from(value: u8) -> Result<CardKind, Undeclared> {
        match value {
            0 => Ok(CardKind::Person),
            1 => Ok(CardKind::Folder),
            2 => Ok(CardKind::Yard),
            3 => Ok(CardKind::Card),
            _ => Err(Undeclared::Kind),
        }
    }
}

impl fmt::Display for CardKind {
    ghost output = { λ kind. Some (kind_word kind) };

    fn fmt<W: fmt::Write>(&self, f: &mut fmt::Formatter<W>) -> fmt::Result {
        f.write_str(match self {
            CardKind::Person => "person",
            CardKind::Folder => "folder",
            CardKind::Yard => "yard",
            CardKind::Card => "card",
        })
    }
}

impl FromStr for CardKind {
    type Err = Undeclared;

    ghost from_str_gives = { λ word r. r ≡ kind_said word };

    fn from_str(s: &str) -> Result<CardKind, Undeclared> {
        match s {
            "person" => Ok(CardKind::Person),
            "folder" => Ok(CardKind::Folder),
            "yard" => Ok(CardKind::Yard),
            "card" => Ok(CardKind::Card),
            _ => Err(Undeclared::Kind),
        }
    }
}

/// A right of the card scheme. To read and to write are inert; to take, to grant and to own are control rights.
#[derive(Clone, Copy, Debug, PartialEq, Eq)]
pub enum CardRight {
    Read = 0,
    Write = 1,
    Take = 2,
    Grant = 3,
    Own = 4,
}

impl CardRight {
    // Whether a mask has the right.
    pub(crate) fn is_in(self, mask: u16) -> bool
        ensures { result ≡ bit (right_number self) mask }
    {
        (mask >> (self as u8)) % 2 == 1
    }
}

impl From<CardRight> for u8 {
    ghost from_gives = { λ right n. n ≡ right_number right };

    fn from(value: CardRight) -> u8 {
        value as u8
    }
}

impl TryFrom<u8> for CardRight {
    type Error = Undeclared;

    ghost try_from_gives = { IsRight };

    fn try_from(value: u8) -> Result<CardRight, Undeclared> {
        match value {
            0 => Ok(CardRight::Read),
            1 => Ok(CardRight::Write),
            2 => Ok(CardRight::Take),
            3 => Ok(CardRight::Grant),
            4 => Ok(CardRight::Own),
            _ => Err(Undeclared::Right),
        }
    }
}

impl fmt::Display for CardRight {
    ghost output = { λ right. Some (right_word right) };

    fn fmt<W: fmt::Write>(&self, f: &mut fmt::Formatter<W>) -> fmt::Result {
        f.write_str(match self {
            CardRight::Read => "r",
            CardRight::Write => "w",
            CardRight::Take => "t",
            CardRight::Grant => "g",
            CardRight::Own => "o",
        })
    }
}

impl FromStr for CardRight {
    type Err = Undeclared;

    ghost from_str_gives = { λ word r. r ≡ right_said word };

    fn from_str(s: &str) -> Result<CardRight, Undeclared> {
        match s {
            "r" => Ok(CardRight::Read),
            "w" => Ok(CardRight::Write),
            "t" => Ok(CardRight::Take),
            "g" => Ok(CardRight::Grant),
            "o" => Ok(CardRight::Own),
            _ => Err(Undeclared::Right),
        }
    }
}

/// A link of the card scheme.
#[derive(Clone, Copy, Debug, PartialEq, Eq)]
pub(crate) enum CardLink {
    TakeGrant = 0,
    Owner = 1,
}

impl TryFrom<u8> for CardLink {
    type Error = Undeclared;

    ghost try_from_gives = { IsLink };

    fn try_from(value: u8) -> Result<CardLink, Undeclared> {
        match value {
            0 => Ok(CardLink::TakeGrant),
            1 => Ok(CardLink::Owner),
            _ => Err(Undeclared::Link),
        }
    }
}
