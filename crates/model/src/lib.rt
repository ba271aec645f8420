//! The register's vocabulary. What every word means stands in `specs/`.
#![tactic(auto)]

mod laws;
mod refusal;
mod rules;
mod ticket_set;
mod tickets;

pub use laws::{
    closes_least, covers_every_run, granted_exactly, numbers_once, one_answer, reaches_all_shown,
    stays_sound,
};
pub use refusal::Refusal;
pub use rules::{DemandKey, FilterKey, Part, Rule, Sight};
pub use tickets::{Entity, StoredSet, Ticket, TicketSet};
