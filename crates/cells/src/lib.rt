//! Holdings in lent memory with a word for every pair: room for every entity to hold tickets for every other.
#![tactic(auto)]

ghost use Rattle.std.specs.Prelude.{◌≡◌};
ghost use Rattle.model.specs.Refusals.{told};
ghost use Rattle.cells.specs.Layout.{fit_answer};

use holdings::MOST_ROWS;
use model::Refusal;

mod squeeze;
mod table;
mod words;

pub use table::CellTable;

/// Whether memory of these sizes fits a table: from 1 to 512 rows, and a cell for every pair of them.
pub fn check(rows: usize, cells: usize) -> Result<(), Refusal>
    ensures { told result ≡ fit_answer rows cells }
{
    if (1..=MOST_ROWS).contains(&rows) && cells == rows * rows {
        Ok(())
    } else {
        Err(Refusal::UnfitMemory)
    }
}
