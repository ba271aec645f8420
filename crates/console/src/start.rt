//! How a script starts over.
ghost use Rattle.std.specs.Prelude.{◌≡◌, ◌*◌, MatchResult};
ghost use Rattle.model.specs.Refusals.{granted, refused, refusal_number};
ghost use Rattle.cells.specs.Layout.{fit_answer as cells_answer};
ghost use Rattle.ticket_list.specs.Sizes.{fit_answer as list_answer};
ghost use Rattle.protocol.specs.Answers.{line};
ghost use Rattle.console.specs.Going.{Begins, Chooses, TurnedDown, NotChosen};

use super::checked::CheckedFile;
use super::loading::load;
use super::sizes::{ListSize, RowCount};
use protocol::{Answer, Start};
use std::alloc::AllocGlobal;
use std::rt::Files;

/// A scheme that a script has chosen.
#[derive(Drop)]
pub enum ChosenScheme {
    Card,
    File(CheckedFile),
}

/// What a script that has chosen a scheme goes on with.
#[derive(Drop)]
pub enum Next {
    /// Another scheme has been chosen.
    Scheme(ChosenScheme),
    /// A set-up on a cell table.
    Cells(RowCount),
    /// A set-up on a ticket list.
    List(ListSize),
}

/// The scheme that a script chooses, or else the answer. Holdings are for a script that has chosen one.
pub fn choose<R: Files + AllocGlobal>(rt: &R, start: Start) -> Result<ChosenScheme, Answer>
    ensures { MatchResult result (Chooses start.entry) (λ a. NotChosen start.entry (line a)) }
{
    match start {
        Start::Card => Ok(ChosenScheme::Card),
        Start::File { path } => Ok(ChosenScheme::File(load(rt, path)?)),
        Start::Cells { .. } | Start::List { .. } => Err(Answer::Error),
    }
}

/// What a script that has chosen a scheme starts over with, or else the answer.
pub fn start_over<R: Files + AllocGlobal>(rt: &R, start: Start) -> Result<Next, Answer>
    ensures { MatchResult result (Begins start.entry) (λ a. TurnedDown start.entry (line a)) }
{
    match start {
        Start::Card | Start::File { .. } => Ok(Next::Scheme(choose(rt, start)?)),
        Start::Cells { rows } => Ok(Next::Cells(RowCount::try_from(rows)?)),
        Start::List { rows, pairs } => Ok(Next::List(ListSize::new(rows, pairs)?)),
    }
}
