//! Taking a row and a column out of the cells: what comes after them moves up.
ghost use Rattle.std.specs.Prelude.{◌≡◌, ℕ, suc, ◌+◌, ◌*◌, ◌<◌, ◌≤◌, List, length};
ghost use Rattle.holdings.specs.Rows.{past};
ghost use Rattle.cells.specs.Squeeze.{squeezed, Squeezed};

// The functions below ask for the same of the cells and their sizes: a struct of these would hold a `&mut` that each lends on, and be
// no plainer for three private steps.

// The place that moves up to `i` where the place `out` is taken out.
fn past(out: usize, i: usize) -> usize
    requires { i < 512 }
    ensures place { result ≡ past out i }
    ensures within { result ≤ i + 1 }
{
    if i < out { i } else { i + 1 }
}

// The word that moves to row `i` and column `j`, where `count` rows and columns are in use, and `out` is taken out of them.
fn squeezed_at(cells: &[u32], n: usize, out: usize, count: usize, i: usize, j: usize) -> u32
    requires sized { length cells.now ≡ n * n }
    requires small { n ≤ 512 }
    requires within { count ≤ n }
    requires at { (i < n) × (j < n) }
    ensures { result ≡ squeezed cells.now n out count i j }
{
    if i + 1 < count && j + 1 < count {
        cells[past(out, i) * n + past(out, j)]
    } else {
        0
    }
}

// Squeezes row `i`, where those before it are squeezed.
fn squeeze_row(cells: &mut [u32], n: usize, out: usize, count: usize, i: usize)
    requires sized { length cells.old ≡ n * n }
    requires small { n ≤ 512 }
    requires within { count ≤ n }
    requires at { i < n }
    ensures { (old : List ℕ) → Squeezed old cells.old n out count (i * n) → Squeezed old cells.new n out count (i * n + n) }
{
    // By place: what moves to a cell comes from a later one of the same slice. Two moves and a fill (`copy_within`, `fill`) at offsets of
    // each row would be no plainer.
    for j in 0..n {
        let word = squeezed_at(&*cells, n, out, count, i, j);
        cells[i * n + j] = word;
    }
}

// Takes row `out` and column `out` out of the `count` that are in use. The rows after those stay.
pub fn squeeze(cells: &mut [u32], n: usize, out: usize, count: usize)
    requires sized { length cells.old ≡ n * n }
    requires small { n ≤ 512 }
    requires within { count ≤ n }
    ensures { Squeezed cells.old cells.new n out count (count * n) }
{
    // By place, as in a row.
    for i in 0..count {
        squeeze_row(&mut *cells, n, out, count, i);
    }
}
