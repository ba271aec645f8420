//! Lists of keys with values, in lent memory and in rising order of the keys. Nothing here knows what the keys are for.
#![tactic(auto)]

mod entry;
mod front;
mod list;

pub use entry::{Entry, Full};
pub use list::OrderedList;
