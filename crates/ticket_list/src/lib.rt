//! Holdings in lent memory with a place for every filled pair: for many entities and few tickets.
#![tactic(auto)]

ghost use Rattle.std.specs.Prelude.{◌≡◌};
ghost use Rattle.model.specs.Refusals.{told};
ghost use Rattle.ticket_list.specs.Sizes.{fit_answer};

use holdings::MOST_ROWS;
use model::Refusal;

mod list;
mod pairs;

pub use list::TicketList;
pub use pairs::Pair;

/// A list has at most this many places.
pub const MOST_PLACES: usize = 65_535;

/// Whether memory of these sizes fits a list: from 1 to 512 rows, and at most 65,535 places.
pub fn check(rows: usize, places: usize) -> Result<(), Refusal>
    ensures { told result ≡ fit_answer rows places }
{
    if (1..=MOST_ROWS).contains(&rows) && places <= MOST_PLACES {
        Ok(())
    } else {
        Err(Refusal::UnfitMemory)
    }
}
