//! The register for people and other programs, under any scheme, on cell tables and on ticket lists: it runs scripts of
//! commands and prints an answer to each.
#![tactic(auto)]

ghost use Rattle.std.specs.Prelude.{true, codes, refl};

use console::{ListsAllOrNone, Program, serve};
use protocol::Start;
use std::process::ExitCode;

/// The program: it knows every command.
#[derive(Clone, Copy, Debug)]
struct Workbench;

impl Program for Workbench {
    ghost named = { codes "workbench" };

    ghost knows = { λ _. true };

    fn name(&self) -> &'static str {
        "workbench"
    }

    fn knows(&self, _start: Start) -> bool {
        true
    }
}

impl ListsAllOrNone for Workbench {
    ghost all_or_none = { λ _ _ _ _. refl };
}

fn main(rt: HostRuntime) -> ExitCode {
    serve(&rt, &Workbench)
}
