//! What a script can do as it goes on: choose a scheme, begin a set-up, fill it, and call and ask the open register. A
//! command that starts over may come at any time.
ghost use Rattle.std.specs.Prelude.{◌≡◌, ℕ, List, IfOk, Ok, Err};
ghost use Rattle.std.specs.declared.ops.ControlFlow.{ControlFlow};
ghost use Rattle.std.specs.ControlFlow.{MatchControlFlow};
ghost use Rattle.protocol.specs.declared.command.Command.{Command};
ghost use Rattle.protocol.specs.declared.answer.Answer.{Answer};
ghost use Rattle.protocol.specs.declared.answer.Answer.TheVariants.{Refused};
ghost use Rattle.protocol.specs.Answers.{line};
ghost use Rattle.console.specs.Lines.{told, unwrapped_line, entry_line, entry_left, call_line, call_left, BeginningSays, ChosenSays, SetUpSays, set_up_left, OpenSays, open_left, BeginningGoes, ChosenGoes, SetUpGoes};

use super::listing::show;
use super::start::{ChosenScheme, Next, choose, start_over};
use holdings::HoldingsMut;
use model::Refusal;
use protocol::{Answer, Call, Command, Entry};
use register::{Register, SetUp};
use scheme::Scheme;
use std::alloc::AllocGlobal;
use std::io;
use std::ops::ControlFlow::{self, Break, Continue};
use std::rt::Files;

/// A part of a script, in which some of the commands can be carried out.
// A trait, though it has one method: its ghost members say what a closure could not, and a part has a state.
pub trait Phase {
    /// What a script goes on with where the part ends.
    type Next: Drop;

    /// That a command may be answered with a line.
    ghost says: { Self → Command → List ℕ → Type 0 };

    /// Whether a command ends the part, and what the script then goes on with.
    ghost goes: { Command → ControlFlow Self.Next Answer → Type 0 };

    /// What a command leaves.
    ghost leaves: { Self → Command → Self → Type 0 };

    /// Carries a command out. It is answered, or the part ends, which is answered ok. Where everything is to be shown, all
    /// lines but the last are printed here.
    fn answer<R: Print + Files + AllocGlobal>(
        &mut self,
        rt: &R,
        command: Command,
    ) -> io::Result<ControlFlow<Self::Next, Answer>>
        ensures says { IfOk result (λ flow. says self.old command.entry (told flow)) }
        ensures goes { IfOk result (λ flow. goes command.entry flow) }
        ensures leaves { leaves self.old command.entry self.new };
}

/// The beginning: there is no scheme.
#[derive(Clone, Copy, Debug, PartialEq, Eq)]
pub struct Beginning;

impl Phase for Beginning {
    type Next = ChosenScheme;

    ghost says = { λ _. BeginningSays };

    ghost goes = { BeginningGoes };

    ghost leaves = { λ _ _ _. Unit {0} };

    fn answer<R: Print + Files + AllocGlobal>(
        &mut self,
        rt: &R,
        command: Command,
    ) -> io::Result<ControlFlow<ChosenScheme, Answer>> {
        Ok(match command {
            Command::Start(start) => going(choose(rt, start)),
            Command::Entry(_) | Command::Call(_) | Command::Show => Continue(Answer::Error),
        })
    }
}

/// A scheme has been chosen, and there are no holdings yet.
// Apart from the beginning, though both answer alike what does not start over: a script goes on with something else after each.
#[derive(Clone, Copy, Debug, PartialEq, Eq)]
pub struct Chosen;

impl Phase for Chosen {
    type Next = Next;

    ghost says = { λ _. ChosenSays };

    ghost goes = { ChosenGoes };

    ghost leaves = { λ _ _ _. Unit {0} };

    fn answer<R: Print + Files + AllocGlobal>(
        &mut self,
        rt: &R,
        command: Command,
    ) -> io::Result<ControlFlow<Next, Answer>> {
        Ok(match command {
            Command::Start(start) => going(start_over(rt, start)),
            Command::Entry(_) | Command::Call(_) | Command::Show => Continue(Answer::Error),
        })
    }
}

/// How a set-up ends.
#[derive(Drop)]
pub enum Ending {
    /// The script starts over.
    Over(Next),
    /// The set-up is opened.
    Opened,
}

impl<S: Scheme, H: HoldingsMut> Phase for SetUp<S, H> {
    type Next = Ending;

    ghost says = { λ s. SetUpSays (S.Scheme.meaning s.scheme) (H.HoldingsMut.room s.holdings) (H.Holdings.meaning s.holdings) };

    ghost goes = { SetUpGoes };

    ghost leaves = { λ s c t. (H.Holdings.meaning t.holdings ≡ set_up_left (S.Scheme.meaning s.scheme) (H.HoldingsMut.room s.holdings) (H.Holdings.meaning s.holdings) c) × (t.scheme ≡ s.scheme) × (H.HoldingsMut.room t.holdings ≡ H.HoldingsMut.room s.holdings) };

    fn answer<R: Print + Files + AllocGlobal>(
        &mut self,
        rt: &R,
        command: Command,
    ) -> io::Result<ControlFlow<Ending, Answer>> {
        Ok(match command {
            Command::Start(start) => going(start_over(rt, start)).map_break(Ending::Over),
            Command::Entry(Entry::Open) => Break(Ending::Opened),
            Command::Entry(entry) => Continue(answer_entry(self, entry).unwrap_or_else(
                Answer::Refused,
            )),
            Command::Call(_) => Continue(Answer::Error),
            Command::Show => Continue(show(rt, self)?),
        })
    }
}

impl<S: Scheme, H: HoldingsMut> Phase for Register<S, H> {
    type Next = Next;

    ghost says = { λ s. OpenSays (S.Scheme.meaning s.scheme) (H.HoldingsMut.room s.holdings) (H.Holdings.meaning s.holdings) };

    ghost goes = { ChosenGoes };

    ghost leaves = { λ s c t. (H.Holdings.meaning t.holdings ≡ open_left (S.Scheme.meaning s.scheme) (H.HoldingsMut.room s.holdings) (H.Holdings.meaning s.holdings) c) × (t.scheme ≡ s.scheme) × (H.HoldingsMut.room t.holdings ≡ H.HoldingsMut.room s.holdings) };

    fn answer<R: Print + Files + AllocGlobal>(
        &mut self,
        rt: &R,
        command: Command,
    ) -> io::Result<ControlFlow<Next, Answer>> {
        Ok(match command {
            Command::Start(start) => going(start_over(rt, start)),
            Command::Entry(_) => Continue(Answer::Error),
            Command::Call(call) => Continue(answer_call(self, call).unwrap_or_else(
                Answer::Refused,
            )),
            Command::Show => Continue(show(rt, self)?),
        })
    }
}

/// The answer to a command, by what a part gave: where the part ends, it is ok.
pub fn answered<N: Drop>(flow: &ControlFlow<N, Answer>) -> Answer
    ensures { line result ≡ told flow.now }
{
    match flow {
        Continue(answer) => *answer,
        Break(_) => Answer::Done,
    }
}

// What a script goes on with ends a part, and an answer does not.
fn going<N: Drop>(res: Result<N, Answer>) -> ControlFlow<N, Answer>
    ensures { MatchControlFlow result (λ a. res ≡ Err a) (λ next. res ≡ Ok next) }
{
    match res {
        Ok(next) => Break(next),
        Err(answer) => Continue(answer),
    }
}

// Carries out a command of a set-up.
fn answer_entry<S: Scheme, H: HoldingsMut>(
    set_up: &mut SetUp<S, H>,
    entry: Entry,
) -> Result<Answer, Refusal>
    ensures says { unwrapped_line result ≡ entry_line (S.Scheme.meaning set_up.old.scheme) (H.HoldingsMut.room set_up.old.holdings) (H.Holdings.meaning set_up.old.holdings) entry }
    ensures left { H.Holdings.meaning set_up.new.holdings ≡ entry_left (S.Scheme.meaning set_up.old.scheme) (H.HoldingsMut.room set_up.old.holdings) (H.Holdings.meaning set_up.old.holdings) entry }
    ensures scheme { set_up.new.scheme ≡ set_up.old.scheme }
    ensures room { H.HoldingsMut.room set_up.new.holdings ≡ H.HoldingsMut.room set_up.old.holdings }
{
    match entry {
        Entry::Enter { kind } => Ok(Answer::Entered {
            number: set_up.enter(kind)?,
        }),
        Entry::Place { holder, ticket } => {
            set_up.place(holder, ticket.target, ticket.ticket)?;
            Ok(Answer::Done)
        }
        Entry::Open => Ok(Answer::Done),
    }
}

// Carries out a command of an open register.
fn answer_call<S: Scheme, H: HoldingsMut>(
    register: &mut Register<S, H>,
    call: Call,
) -> Result<Answer, Refusal>
    ensures says { unwrapped_line result ≡ call_line (S.Scheme.meaning register.old.scheme) (H.HoldingsMut.room register.old.holdings) (H.Holdings.meaning register.old.holdings) call }
    ensures left { H.Holdings.meaning register.new.holdings ≡ call_left (S.Scheme.meaning register.old.scheme) (H.HoldingsMut.room register.old.holdings) (H.Holdings.meaning register.old.holdings) call }
    ensures scheme { register.new.scheme ≡ register.old.scheme }
    ensures room { H.HoldingsMut.room register.new.holdings ≡ H.HoldingsMut.room register.old.holdings }
{
    Ok(match call {
        Call::Copy {
            giver,
            taker,
            ticket,
        } => Answer::Linked {
            link: register.copy(giver, taker, ticket.target, ticket.ticket)?,
        },
        Call::Demand { demander, ticket } => {
            register.demand(demander, ticket.target, ticket.ticket)?;
            Answer::Granted
        }
        Call::Create {
            kind,
            parent,
            second,
        } => Answer::Created {
            number: register.create(parent, second, kind)?,
        },
        Call::Drop { holder, ticket } => {
            register.drop_ticket(holder, ticket.target, ticket.ticket.right)?;
            Answer::Dropped
        }
        Call::Retire { entity } => {
            register.retire(entity)?;
            Answer::Retired
        }
        Call::Ask { holder, ticket } => {
            if register.question(holder, ticket.target, ticket.ticket)? {
                Answer::Yes
            } else {
                Answer::No
            }
        }
    })
}
