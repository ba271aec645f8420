//! The register: a set-up, in which entities are entered and tickets placed by hand, and the open register that it
//! becomes for good. Both work over any scheme and any holdings that can be changed. The calls are functions over a scheme and
//! holdings apart, and not over a book of both: while one is under way, nothing says that the holdings are sound.
#![tactic(auto)]

mod asking;
mod births;
mod book;
mod copies;
mod creating;
mod examples;
mod gains;
mod open;
mod parents;
mod set_up;
mod takes;

pub use asking::question;
pub use book::{Begun, Book, Opened};
pub use examples::worked_examples;
pub use open::Register;
pub use set_up::SetUp;
