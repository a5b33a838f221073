// Working values by prices: the row minima that the steps begin with, and the values that the prices leave at the end.
ghost use Rattle.std.specs.Prelude.{◌≡◌, cond, pos, ◌-ℤ◌, get_or};
ghost use Rattle.std.specs.Int.{w64};
ghost use Rattle.std.proofs.Common.{SFits};
ghost use Rattle.lines.specs.Square.{table, each_row};
ghost use Rattle.steps.specs.Lent.{allows, cost_at};
ghost use Rattle.starred.specs.Written.{working_of};
ghost use Rattle.starred.specs.Asks.{PricesRows, WritesRow, WritesWorking};

use ground::matrix::Matrix;

pub fn difference(x: i64, y: i64) -> i64
    requires { SFits w64 (x -ℤ y) }
    ensures { result ≡ x -ℤ y }
{
    x - y
}

// Step 1: the price of each row is its cost where it is cheapest.
pub fn set_row_prices(matrix: Matrix, cheapest: &[usize; 64], row_prices: &mut [i64])
    requires { PricesRows matrix.n matrix.costs.now cheapest.now row_prices.old }
    ensures { let m = matrix.entry in row_prices.new ≡ table (λ i. cost_at m.n m.costs.now i (get_or cheapest.now i 0)) m.n }
{
    for (row, price) in row_prices.iter_mut().enumerate() {
        *price = i64::from(matrix.costs[row * matrix.n + cheapest[row]]);
    }
}

// What each cost of the row is above its prices; 0 at a forbidden cell. The value is computed for every cell and kept where it is allowed, so that nothing branches on the mask.
fn write_row(matrix: Matrix, row: usize, price: i64, column_prices: &[i64], working: &mut [i64])
    requires { WritesRow matrix.n matrix.costs.now matrix.mask.now row price column_prices.now working.old }
    ensures { let m = matrix.entry in working.new
        ≡ each_row m.n row (λ j w. cond (allows m.n m.mask.now row j) (cost_at m.n m.costs.now row j -ℤ price -ℤ get_or column_prices.now j (pos 0)) (pos 0)) working.old }
{
    let Matrix { n, costs, mask } = matrix;
    let start = row * n;
    for column in 0..n {
        let place = start + column;
        let above_row = difference(i64::from(costs[place]), price);
        let above = difference(above_row, column_prices[column]);
        working[place] = if mask[place] == 1 { above } else { 0 };
    }
}

// The working values that the prices leave.
pub fn write_working(matrix: Matrix, row_prices: &[i64], column_prices: &[i64], working: &mut [i64])
    requires { WritesWorking matrix.n matrix.costs.now matrix.mask.now row_prices.now column_prices.now working.old }
    ensures { let m = matrix.entry in working.new ≡ working_of m.n m.costs.now m.mask.now row_prices.now column_prices.now }
{
    for row in 0..matrix.n {
        write_row(matrix, row, row_prices[row], column_prices, working);
    }
}
