//! The blocks and records of scheme files, and what records say of a scheme.
#![tactic(auto)]

mod block;
mod masks;
mod questions;
mod record;
mod records;
mod walk;

pub use block::{block_at, block_check, count_of, record_bytes, word_at};
pub use masks::{are_within, is_within};
pub use record::{ParentSets, Record, RuleKey, RuleSets, Tag, decode};
pub use records::Records;
pub use walk::Walk;
