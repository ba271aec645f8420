//! The register for people and other programs, under the card scheme and on cell tables: it runs scripts of commands and
//! prints an answer to each.
#![tactic(auto)]

ghost use Rattle.std.specs.Prelude.{codes, refl};
ghost use Rattle.kuyqelpa.specs.Knowing.{cards_and_cells};

use console::{ListsAllOrNone, Program, serve};
use protocol::Start;
use std::process::ExitCode;

/// The program: no list and no scheme file is a command of its.
#[derive(Clone, Copy, Debug)]
struct Kuyqelpa;

impl Program for Kuyqelpa {
    ghost named = { codes "kuyqelpa" };

    ghost knows = { cards_and_cells };

    fn name(&self) -> &'static str {
        "kuyqelpa"
    }

    fn knows(&self, start: Start) -> bool {
        match start {
            Start::Card | Start::Cells { .. } => true,
            Start::File { .. } | Start::List { .. } => false,
        }
    }

    fn may_know_lists(&self) -> bool {
        false
    }
}

impl ListsAllOrNone for Kuyqelpa {
    ghost all_or_none = { λ _ _ _ _. refl };
}

fn main(rt: HostRuntime) -> ExitCode {
    serve(&rt, &Kuyqelpa)
}
