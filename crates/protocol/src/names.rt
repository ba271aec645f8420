//! The card scheme's types, rights and tickets in words.
use super::words::TicketFor;
use scheme::{CardKind, CardRight};
use std::fmt;

/// A name of the card scheme, or what is told of a number that has none.
#[derive(Clone, Copy, Debug)]
pub struct Named<T> {
    name: Option<T>,
    otherwise: &'static str,
}

impl<T: fmt::Display> fmt::Display for Named<T> {
    fn fmt<W: fmt::Write>(&self, f: &mut fmt::Formatter<W>) -> fmt::Result {
        match &self.name {
            Some(name) => write!(f, "{name}"),
            None => f.write_str(self.otherwise),
        }
    }
}

/// A type by its word.
pub fn kind_name(kind: u8) -> Named<CardKind> {
    Named {
        name: CardKind::try_from(kind).ok(),
        otherwise: "unknown",
    }
}

// A right by its letter.
fn letter(right: u8) -> Named<CardRight> {
    Named {
        name: CardRight::try_from(right).ok(),
        otherwise: "?",
    }
}

// A right as a deed.
fn deed(right: u8) -> &'static str {
    match CardRight::try_from(right) {
        Ok(CardRight::Read) => "read",
        Ok(CardRight::Write) => "write on",
        Ok(CardRight::Take) => "take from",
        Ok(CardRight::Grant) => "grant to",
        Ok(CardRight::Own) => "own",
        Err(_) => "unknown",
    }
}

/// The ticket as a script writes it, and what it is.
impl fmt::Display for TicketFor {
    fn fmt<W: fmt::Write>(&self, f: &mut fmt::Formatter<W>) -> fmt::Result {
        let target = self.target;
        let letter = letter(self.ticket.right);
        let deed = deed(self.ticket.right);
        if self.ticket.copy {
            write!(
                f,
                "{target}/{letter}c: the right to {deed} entity {target}, with the copy flag"
            )
        } else {
            write!(f, "{target}/{letter}: the right to {deed} entity {target}")
        }
    }
}
