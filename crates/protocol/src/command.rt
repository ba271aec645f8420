//! The commands of a script, one to a line.
ghost use Rattle.std.specs.Option.{option_map};
ghost use Rattle.protocol.specs.Commands.{MeansStart, MeansEntry, MeansCall, Means, WordsSay, Tells};
ghost use Rattle.protocol.specs.Scripts.{words_of};

use super::script::without_comment;
use super::words::{TicketFor, kind, number, plain_ticket, ticket};

/// A command.
#[derive(Clone, Copy, Debug, PartialEq, Eq)]
pub enum Command<'a> {
    /// One that starts over. It may come at any time.
    Start(Start<'a>),
    /// One that fills a set-up, or ends it.
    Entry(Entry),
    /// A call or a question of an open register.
    Call(Call),
    /// `show`: shows everything.
    Show,
}

/// A command that starts over.
#[derive(Clone, Copy, Debug, PartialEq, Eq)]
pub enum Start<'a> {
    /// `scheme card`: chooses the card scheme.
    Card,
    /// `scheme file PATH`: chooses the scheme that a file has.
    File { path: &'a str },
    /// `cells N`: begins a set-up on a cell table of N rows.
    Cells { rows: u32 },
    /// `list N P`: begins a set-up on a ticket list of N rows and P pairs.
    List { rows: u32, pairs: u32 },
}

/// A command of a set-up.
#[derive(Clone, Copy, Debug, PartialEq, Eq)]
pub enum Entry {
    /// `enter TYPE`: enters an entity.
    Enter { kind: u8 },
    /// `place A TICKET`: gives entity A a ticket by hand.
    Place { holder: u32, ticket: TicketFor },
    /// `open`: ends the set-up.
    Open,
}

/// A command of an open register.
#[derive(Clone, Copy, Debug, PartialEq, Eq)]
pub enum Call {
    /// `copy A B TICKET`: copies a ticket from entity A to entity B.
    Copy {
        giver: u32,
        taker: u32,
        ticket: TicketFor,
    },
    /// `demand B TICKET`: gives entity B a ticket that it may demand.
    Demand {
        demander: u32,
        ticket: TicketFor,
    },
    /// `create TYPE P1 [P2]`: creates an entity, with one parent or two.
    Create {
        kind: u8,
        parent: u32,
        second: Option<u32>,
    },
    /// `drop A Y/x`: takes a right for entity Y from entity A, with its copy flag.
    Drop {
        holder: u32,
        ticket: TicketFor,
    },
    /// `retire Y`: takes entity Y out of the register.
    Retire {
        entity: u32,
    },
    /// `ask A TICKET`: asks whether entity A has a ticket.
    Ask {
        holder: u32,
        ticket: TicketFor,
    },
}

/// The command that a line says, or none where the line is malformed.
pub fn parse(line: &str) -> Option<Command>
    ensures { Tells result (λ c. WordsSay (words_of line.now) c) }
{
    let mut words = without_comment(line).split_ascii_whitespace();
    let name = words.next()?;
    let first = words.next();
    let second = words.next();
    let third = words.next();
    if words.next().is_some() {
        return None;
    }
    read(name, first, second, third)
}

// The command that up to four words say.
fn read<'a>(
    name: &str,
    first: Option<&'a str>,
    second: Option<&'a str>,
    third: Option<&str>,
) -> Option<Command<'a>>
    ensures { Tells result (λ c. Means name.now (option_map (λ x. x.now) first.entry) (option_map (λ x. x.now) second.entry) (option_map (λ x. x.now) third.entry) c) }
{
    match (name, first, third) {
        ("scheme" | "cells" | "list", Some(first), None) => {
            Some(Command::Start(read_start(name, first, second)?))
        }
        ("enter" | "place" | "open", _, None) => {
            Some(Command::Entry(read_entry(name, first, second)?))
        }
        ("show", None, None) if second.is_none() => Some(Command::Show),
        (_, Some(first), _) => Some(Command::Call(read_call(name, first, second, third)?)),
        _ => None,
    }
}

// The command that two or three words say, where it starts over.
fn read_start<'a>(name: &str, first: &'a str, second: Option<&'a str>) -> Option<Start<'a>>
    ensures { Tells result (λ c. MeansStart name.now first.now (option_map (λ x. x.now) second.entry) c) }
{
    match (name, first, second) {
        ("scheme", "card", None) => Some(Start::Card),
        ("scheme", "file", Some(path)) => Some(Start::File { path }),
        ("cells", rows, None) => Some(Start::Cells {
            rows: number(rows)?,
        }),
        ("list", rows, Some(pairs)) => Some(Start::List {
            rows: number(rows)?,
            pairs: number(pairs)?,
        }),
        _ => None,
    }
}

// The command of a set-up that up to three words say.
fn read_entry(name: &str, first: Option<&str>, second: Option<&str>) -> Option<Entry>
    ensures { Tells result (λ c. MeansEntry name.now (option_map (λ x. x.now) first.entry) (option_map (λ x. x.now) second.entry) c) }
{
    match (name, first, second) {
        ("enter", Some(word), None) => Some(Entry::Enter { kind: kind(word)? }),
        ("place", Some(holder), Some(word)) => Some(Entry::Place {
            holder: number(holder)?,
            ticket: ticket(word)?,
        }),
        ("open", None, None) => Some(Entry::Open),
        _ => None,
    }
}

// The call that two to four words say.
fn read_call(name: &str, first: &str, second: Option<&str>, third: Option<&str>) -> Option<Call>
    ensures { Tells result (λ c. MeansCall name.now first.now (option_map (λ x. x.now) second.entry) (option_map (λ x. x.now) third.entry) c) }
{
    match (name, second, third) {
        ("copy", Some(taker), Some(word)) => Some(Call::Copy {
            giver: number(first)?,
            taker: number(taker)?,
            ticket: ticket(word)?,
        }),
        ("demand", Some(word), None) => Some(Call::Demand {
            demander: number(first)?,
            ticket: ticket(word)?,
        }),
        ("create", Some(parent), None) => Some(Call::Create {
            kind: kind(first)?,
            parent: number(parent)?,
            second: None,
        }),
        ("create", Some(parent), Some(second)) => Some(Call::Create {
            kind: kind(first)?,
            parent: number(parent)?,
            second: Some(number(second)?),
        }),
        ("drop", Some(word), None) => Some(Call::Drop {
            holder: number(first)?,
            ticket: plain_ticket(word)?,
        }),
        ("retire", None, None) => Some(Call::Retire {
            entity: number(first)?,
        }),
        ("ask", Some(word), None) => Some(Call::Ask {
            holder: number(first)?,
            ticket: ticket(word)?,
        }),
        _ => None,
    }
}
