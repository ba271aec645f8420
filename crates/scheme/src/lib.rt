//! Protection schemes: what a scheme is asked, and the card scheme.
#![tactic(auto)]

mod asked;
mod card;
mod card_names;
mod tables;

pub use asked::Scheme;
pub use card::CardScheme;
pub use card_names::{CardKind, CardRight, Undeclared};
