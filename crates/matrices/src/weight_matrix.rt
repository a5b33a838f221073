// Working values: what each cost is above its row's minimum, the least uncovered value, and what an adjustment changes.
ghost use Rattle.std.specs.Prelude.{◌≡◌, cond, not, ◌&&◌, ◌+◌, ◌*◌, ◌/◌, ◌%◌, ◌<◌, eqb, pos, ◌-ℤ◌, length, get_or};
ghost use Rattle.std.specs.Int.{w64};
ghost use Rattle.std.proofs.Common.{SFits};
ghost use Rattle.lines.specs.Square.{table, square, each_row};
ghost use Rattle.lines.specs.Sets.{has};
ghost use Rattle.steps.specs.Lent.{allows, cost_at};
ghost use Rattle.steps.specs.Steps.{is_zero, row_price, excess, uncovered, follow, followed};
ghost use Rattle.ground.specs.Square.{Grid};
ghost use Rattle.matrices.specs.Prices.{SubtractsRow, Subtracts, FollowsRow, Follows};
ghost use Rattle.ground.specs.Least.{least_from};

use ground::matrix::Matrix;
use ground::prices::lesser;
use ground::sets::{lines_alike, members, uncovered_lines};

// 0 for the mask byte of an allowed cell, and more for any other.
fn blocked(byte: u8) -> i64
    ensures { result ≡ pos ((byte + 255) % 256) }
{
    i64::from(byte.wrapping_sub(1))
}

// An allowed cell with working value 0: one test, as a forbidden cell's value is 0 as well and a test of the value alone is seldom foretold.
pub(crate) fn is_element_zero(mask: &[u8], working: &[i64], place: usize) -> bool
    requires { (place < length mask.now) × (place < length working.now) }
    ensures { result ≡ (eqb (get_or mask.now place 1) 1 && is_zero (get_or working.now place (pos 0))) }
{
    (working[place] | blocked(mask[place])) == 0
}

// ---- step 1

// Each allowed cell of the row becomes what its cost is above the price, and each other one 0.
fn sub_row(matrix: Matrix, row: usize, price: i64, working: &mut [i64])
    requires { SubtractsRow matrix.n matrix.costs.now matrix.mask.now row price working.old }
    ensures { let m = matrix.entry in
        working.new ≡ each_row m.n row (λ j w. cond (allows m.n m.mask.now row j) (cost_at m.n m.costs.now row j -ℤ price) (pos 0)) working.old }
{
    let Matrix { n, costs, mask } = matrix;
    let start = row * n;
    for column in 0..n {
        let place = start + column;
        working[place] = if mask[place] == 1 {
            i64::from(costs[place]) - price
        } else {
            0
        };
    }
}

pub fn sub_min_of_each_row(matrix: Matrix, working: &mut [i64], row_prices: &mut [i64])
    requires { Subtracts matrix.n matrix.costs.now matrix.mask.now working.old row_prices.old }
    ensures { let m = matrix.entry in
        (working.new ≡ square (excess m.n (allows m.n m.mask.now) (cost_at m.n m.costs.now)) m.n)
        × (row_prices.new ≡ table (row_price m.n (allows m.n m.mask.now) (cost_at m.n m.costs.now)) m.n) }
{
    for row in 0..matrix.n {
        let price = matrix.price_of_row(row);
        row_prices[row] = price;
        sub_row(matrix, row, price, working);
    }
}

// ---- step 6

// The least of a least value so far and the row's allowed cells in uncovered columns.
fn least_in_row(
    matrix: Matrix,
    working: &[i64],
    columns: u64,
    row: usize,
    so_far: Option<i64>,
) -> Option<i64>
    requires { Grid matrix.n matrix.mask.now working.now × (row < matrix.n) }
    ensures { let m = matrix.entry in
        result ≡ least_from so_far (λ j. not (has columns j) && allows m.n m.mask.now row j) (λ j. get_or working.now (row * m.n + j) (pos 0)) m.n }
{
    let Matrix { n, mask, .. } = matrix;
    let start = row * n;
    let mut least = so_far;
    for column in members(uncovered_lines(n, columns)) {
        if mask[start + column] == 1 {
            least = lesser(least, working[start + column]);
        }
    }
    least
}

// The least allowed uncovered working value.
pub fn least_uncovered(matrix: Matrix, working: &[i64], rows: u64, columns: u64) -> Option<i64>
    requires { Grid matrix.n matrix.mask.now working.now }
    ensures { let m = matrix.entry in result
        ≡ least_from None (λ q. uncovered rows columns (q / m.n) (q % m.n) && allows m.n m.mask.now (q / m.n) (q % m.n)) (λ q. get_or working.now q (pos 0)) (m.n * m.n) }
{
    let mut least = None;
    for row in members(uncovered_lines(matrix.n, rows)) {
        least = least_in_row(matrix, working, columns, row, least);
    }
    least
}

// A working value follows the prices: up where row and column are covered, down where neither is.
#[tactic(auto, unfolding(steps::specs::Steps::follow))]
fn followed_value(change: i64, row: bool, column: bool, value: i64) -> i64
    requires { SFits w64 (follow change row column value) }
    ensures { result ≡ follow change row column value }
{
    match (row, column) {
        (true, true) => value + change,
        (false, false) => value - change,
        _ => value,
    }
}

// In a covered row the covered columns' values change, and in another one the uncovered columns'; a forbidden cell's changes by 0. What it is given is one
// row's share of what `follow_prices` is, and travels no further.
fn follow_row(
    matrix: Matrix,
    columns: u64,
    row: usize,
    covered: bool,
    change: i64,
    working: &mut [i64],
)
    requires { FollowsRow matrix.n matrix.mask.now columns row covered change working.old }
    ensures { let m = matrix.entry in working.new ≡ each_row m.n row (λ j w. cond (allows m.n m.mask.now row j) (follow change covered (has columns j) w) w) working.old }
{
    let Matrix { n, mask, .. } = matrix;
    let start = row * n;
    for column in members(lines_alike(n, columns, covered)) {
        let place = start + column;
        let amount = change * i64::from(mask[place]);
        working[place] = followed_value(amount, covered, covered, working[place]);
    }
}

pub fn follow_prices(matrix: Matrix, rows: u64, columns: u64, change: i64, working: &mut [i64])
    requires { Follows matrix.n matrix.mask.now rows columns change working.old }
    ensures { let m = matrix.entry in working.new ≡ followed m.n (allows m.n m.mask.now) change rows columns working.old }
{
    for row in 0..matrix.n {
        let covered = lines::has(rows, row);
        follow_row(matrix, columns, row, covered, change, working);
    }
}
