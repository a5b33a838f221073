// The searches for zeros in uncovered lines: along a row for step 2, column by column for step 4.
ghost use Rattle.std.specs.Prelude.{◌≡◌, not, ◌&&◌, ◌<◌};
ghost use Rattle.lines.specs.First.{first, found};
ghost use Rattle.lines.specs.Sets.{has};
ghost use Rattle.steps.specs.Lent.{allows};
ghost use Rattle.steps.specs.Steps.{zero_at};
ghost use Rattle.ground.specs.Square.{Grid};
ghost use Rattle.matrices.specs.Cell.{found_zero};

use crate::weight_matrix::is_element_zero;
use ground::matrix::Matrix;
use ground::sets::{members, uncovered_lines};

// Matrix and working values are lent one by one, as an adjustment changes the values alone; `Grid` says once what a search asks of both.

// The row's first zero in a column that is not taken.
pub fn find_zero_in_row(matrix: Matrix, working: &[i64], taken: u64, row: usize) -> Option<usize>
    requires { Grid matrix.n matrix.mask.now working.now × (row < matrix.n) }
    ensures { let m = matrix.entry in result ≡ found m.n (first (λ j. zero_at m.n (allows m.n m.mask.now) working.now row j && not (has taken j)) m.n) }
{
    let Matrix { n, mask, .. } = matrix;
    let start = row * n;
    for column in 0..n {
        if !lines::has(taken, column) && is_element_zero(mask, working, start + column) {
            return Some(column);
        }
    }
    None
}

// The first uncovered row with a zero in the column.
fn find_zero_in_column(matrix: Matrix, working: &[i64], rows: u64, column: usize) -> Option<usize>
    requires { Grid matrix.n matrix.mask.now working.now × (column < matrix.n) }
    ensures { let m = matrix.entry in result ≡ found m.n (first (λ i. not (has rows i) && zero_at m.n (allows m.n m.mask.now) working.now i column) m.n) }
{
    let Matrix { n, mask, .. } = matrix;
    for row in members(uncovered_lines(n, rows)) {
        if is_element_zero(mask, working, row * n + column) {
            return Some(row);
        }
    }
    None
}

// The first uncovered zero, column by column and downwards in each: its row and column.
pub fn find_uncovered_cell_column_row_order(
    matrix: Matrix,
    working: &[i64],
    rows: u64,
    columns: u64,
) -> Option<(usize, usize)>
    requires { Grid matrix.n matrix.mask.now working.now }
    ensures { let m = matrix.entry in result ≡ found_zero m.n (allows m.n m.mask.now) working.now rows columns }
{
    for column in members(uncovered_lines(matrix.n, columns)) {
        if let Some(row) = find_zero_in_column(matrix, working, rows, column) {
            return Some((row, column));
        }
    }
    None
}
