//! The text protocol: what the lines of a script say, and the lines that answer them.
#![tactic(auto)]

mod answer;
mod command;
mod names;
mod script;
mod words;

pub use answer::{Answer, Note};
pub use command::{Call, Command, Entry, Start, parse};
pub use script::Script;
pub use words::TicketFor;
