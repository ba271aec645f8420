//! A program that the tests run. Of ticket lists it knows some sizes and not others: those of two rows and more. It does not say that
//! it knows none, so it is lent as many places for pairs as the longest list has.
#![tactic(auto)]

ghost use Rattle.std.specs.Prelude.{codes};
ghost use Rattle.some_lists.specs.Knowing.{two_rows_and_more};

use console::{Program, serve};
use protocol::Start;
use std::process::ExitCode;

/// The program.
#[derive(Clone, Copy, Debug)]
struct SomeLists;

impl Program for SomeLists {
    ghost named = { codes "some_lists" };

    ghost knows = { two_rows_and_more };

    fn name(&self) -> &'static str {
        "some_lists"
    }

    fn knows(&self, start: Start) -> bool {
        match start {
            Start::Card | Start::Cells { .. } => true,
            Start::List { rows, .. } => rows >= 2,
            Start::File { .. } => false,
        }
    }
}

fn main(rt: HostRuntime) -> ExitCode {
    serve(&rt, &SomeLists)
}
