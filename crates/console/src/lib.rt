//! A program over the text protocol: it runs scripts of commands and prints an answer to each. Which commands it knows is
//! the program's to say.
#![tactic(auto)]

mod arguments;
mod checked;
mod example;
mod help;
mod listing;
mod loading;
mod memory;
mod phase;
mod program;
mod session;
mod sizes;
mod start;

pub use arguments::serve;
pub use program::{ListsAllOrNone, Program, read};
