//! Sizes of holdings for which memory can be lent.
ghost use Rattle.std.specs.Prelude.{◌≡◌, ◌*◌, true, MatchResult};
ghost use Rattle.model.specs.Refusals.{granted, refused, refusal_number};
ghost use Rattle.cells.specs.Layout.{fit as cells_fit, fit_answer as cells_answer};
ghost use Rattle.ticket_list.specs.Sizes.{fit as list_fits, fit_answer as list_answer};

use model::Refusal;

/// A number of rows that fits: memory of as many rows, and a cell for every pair of them, can be lent.
#[derive(Clone, Copy, Debug, PartialEq, Eq)]
pub struct RowCount {
    pub(crate) rows: usize,
    ghost fits: { cells_fit rows (rows * rows) ≡ true },
}

impl TryFrom<u32> for RowCount {
    type Error = Refusal;

    ghost try_from_gives = { λ rows result. MatchResult result (λ n. (n.rows ≡ rows) × (cells_answer rows (rows * rows) ≡ granted tt)) (λ e. cells_answer rows (rows * rows) ≡ refused (refusal_number e)) };

    fn try_from(value: u32) -> Result<RowCount, Refusal> {
        let rows = value as usize;
        cells::check(rows, rows * rows)?;
        Ok(RowCount { rows })
    }
}

/// Numbers of rows and of places for pairs that fit a ticket list.
#[derive(Clone, Copy, Debug, PartialEq, Eq)]
pub struct ListSize {
    pub(crate) rows: usize,
    pub(crate) pairs: usize,
    ghost fits: { list_fits rows pairs ≡ true },
}

impl ListSize {
    /// A script's numbers of rows and pairs, where memory for them can be lent.
    pub fn new(rows: u32, pairs: u32) -> Result<ListSize, Refusal>
        ensures { MatchResult result (λ n. (n.rows ≡ rows) × (n.pairs ≡ pairs) × (list_answer rows pairs ≡ granted tt)) (λ e. list_answer rows pairs ≡ refused (refusal_number e)) }
    {
        let rows = rows as usize;
        let pairs = pairs as usize;
        ticket_list::check(rows, pairs)?;
        Ok(ListSize { rows, pairs })
    }
}
