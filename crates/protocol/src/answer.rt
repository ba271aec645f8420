//! The answers to commands: the line that other programs read, and the sentence for people.
ghost use Rattle.std.specs.Prelude.{◌≡◌, Some};
ghost use Rattle.protocol.specs.declared.answer.Answer.TheVariants.{Refused, Faulty};
ghost use Rattle.protocol.specs.Answers.{line};

use super::command::{Call, Command, Entry, Start};
use super::names::kind_name;
use model::Refusal;
use scheme_file::{FaultNumbers, FileFault};
use std::fmt;

/// What a command is answered.
#[derive(Clone, Copy, Debug, PartialEq, Eq)]
pub enum Answer {
    Done,
    Entered { number: u32 },
    /// A copy was granted by a link.
    Linked { link: u8 },
    Granted,
    Created { number: u32 },
    Dropped,
    Retired,
    Yes,
    No,
    Refused(Refusal),
    /// A scheme file is refused.
    Faulty(FileFault),
    /// Everything has been shown.
    End,
    /// The line is malformed, or its command does not belong here.
    Error,
}

impl From<Refusal> for Answer {
    ghost from_gives = { λ refusal a. a ≡ Refused refusal };

    fn from(value: Refusal) -> Answer {
        Answer::Refused(value)
    }
}

impl From<FileFault> for Answer {
    ghost from_gives = { λ fault a. a ≡ Faulty fault };

    fn from(value: FileFault) -> Answer {
        Answer::Faulty(value)
    }
}

/// The answer's line.
impl fmt::Display for Answer {
    ghost output = { λ a. Some (line a) };

    fn fmt<W: fmt::Write>(&self, f: &mut fmt::Formatter<W>) -> fmt::Result {
        match *self {
            Answer::Done => f.write_str("ok"),
            Answer::Entered { number } => write!(f, "entered {number}"),
            Answer::Linked { link } => write!(f, "granted link {link}"),
            Answer::Granted => f.write_str("granted"),
            Answer::Created { number } => write!(f, "created {number}"),
            Answer::Dropped => f.write_str("dropped"),
            Answer::Retired => f.write_str("retired"),
            Answer::Yes => f.write_str("yes"),
            Answer::No => f.write_str("no"),
            Answer::Refused(refusal) => {
                let number = refusal.number();
                write!(f, "refused {number}")
            }
            Answer::Faulty(fault) => {
                let FaultNumbers {
                    layer,
                    cause,
                    block,
                    place,
                } = fault.numbers();
                write!(
                    f,
                    "refused 16 layer {layer} cause {cause} block {block} record {place}"
                )
            }
            Answer::End => f.write_str("end"),
            Answer::Error => f.write_str("error"),
        }
    }
}

/// A line's command, or none where it says none, with its answer: to be told in a sentence.
#[derive(Clone, Copy, Debug, PartialEq, Eq)]
pub struct Note<'a> {
    pub command: Option<Command<'a>>,
    pub answer: Answer,
}

impl fmt::Display for Note<'_> {
    fn fmt<W: fmt::Write>(&self, f: &mut fmt::Formatter<W>) -> fmt::Result {
        match (self.answer, self.command) {
            (Answer::Refused(refusal), _) => write!(f, "Refused: {refusal}. Nothing has changed."),
            (Answer::Faulty(fault), _) => write!(f, "Refused: {fault}. Nothing has changed."),
            (Answer::Error, None) => f.write_str("This line says no command. Nothing has changed."),
            (Answer::Error, Some(Command::Start(Start::File { .. }))) => {
                f.write_str("This file cannot be read. Nothing has changed.")
            }
            (Answer::Error, Some(_)) => f.write_str(
                "This command does not belong here. Nothing has changed.",
            ),
            (answer, Some(command)) => granted(command, answer, f),
            (_, None) => Ok(()),
        }
    }
}

// What a granted command did.
fn granted<W: fmt::Write>(
    command: Command,
    answer: Answer,
    f: &mut fmt::Formatter<W>,
) -> fmt::Result {
    match command {
        Command::Start(start) => started(start, f),
        Command::Entry(entry) => entered(entry, answer, f),
        Command::Call(call) => called(call, answer, f),
        Command::Show => f.write_str(SHOWN),
    }
}

// What a script started over with.
fn started<W: fmt::Write>(start: Start, f: &mut fmt::Formatter<W>) -> fmt::Result {
    match start {
        Start::Card => f.write_str(
            "The card scheme is chosen: its rules say which types and rights there are.",
        ),
        Start::File { .. } => f.write_str(
            "The scheme of this file is chosen: its rules say which types and rights there are.",
        ),
        Start::Cells { rows } => write!(
            f,
            "An empty set-up begins. It has {rows} rows, and each entity takes one."
        ),
        Start::List { rows, pairs } => write!(
            f,
            "An empty set-up begins. It has {rows} rows, and each entity takes one. It has places for {pairs} pairs of a holder \
and a target, and each pair with tickets takes one."
        ),
    }
}

// What a granted command of a set-up did.
fn entered<W: fmt::Write>(entry: Entry, answer: Answer, f: &mut fmt::Formatter<W>) -> fmt::Result {
    match (entry, answer) {
        (Entry::Enter { kind }, Answer::Entered { number }) => {
            let name = kind_name(kind);
            write!(
                f,
                "Entity {number} stands in the register now. Its type is {name}."
            )
        }
        (Entry::Place { holder, ticket }, _) => write!(f, "Entity {holder} now holds {ticket}."),
        (Entry::Open, _) => f.write_str(
            "The register is open. Nothing is entered or placed by hand any more.",
        ),
        (Entry::Enter { .. }, _) => Ok(()),
    }
}

// What a granted call did, or what a question was answered.
fn called<W: fmt::Write>(call: Call, answer: Answer, f: &mut fmt::Formatter<W>) -> fmt::Result {
    match (call, answer) {
        (
            Call::Copy {
                giver,
                taker,
                ticket,
            },
            Answer::Linked { link },
        ) => write!(
            f,
            "Link {link} holds from entity {giver} to entity {taker} and passes this ticket. Entity {taker} now holds {ticket}."
        ),
        (Call::Demand { demander, ticket }, _) => write!(
            f,
            "The rules give this ticket to entity {demander} for the asking. It now holds {ticket}."
        ),
        (Call::Create { kind, .. }, Answer::Created { number }) => {
            let name = kind_name(kind);
            write!(
                f,
                "Entity {number} has been created, with the tickets that the rules give. Its type is {name}."
            )
        }
        (Call::Drop { holder, ticket }, _) => write!(
            f,
            "Entity {holder} no longer holds {ticket}."
        ),
        (Call::Retire { entity }, _) => write!(
            f,
            "Entity {entity} is gone, with all that it held and all tickets for it. Its number is never given again."
        ),
        (Call::Ask { holder, ticket }, Answer::Yes) => write!(f, "Entity {holder} holds {ticket}."),
        (Call::Ask { holder, ticket }, _) => write!(f, "Entity {holder} does not hold {ticket}."),
        (Call::Copy { .. } | Call::Create { .. }, _) => Ok(()),
    }
}

const SHOWN: &str =
    "Shown are the number that the next entity gets, each entity with the number of its type, and what each \
holder has for each target: the rights, and those of them with the copy flag. A right counts 1 for right 0, 2 for right 1, \
4 for right 2 and so on, and the sum is written in base sixteen.";
