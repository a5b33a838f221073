// Prices: a least value and one more, the zeros that columns begin with, and the prices of a set of lines that change alike.
ghost use Rattle.std.specs.Prelude.{◌≡◌, pos, length};
ghost use Rattle.lines.specs.Square.{table};
ghost use Rattle.steps.specs.Steps.{lowered, raised};
ghost use Rattle.ground.specs.Prices.{Shifts, AdjustsPrices, shifted};
ghost use Rattle.ground.specs.Least.{lesser_of};

use crate::sets;

pub fn lesser(least: Option<i64>, value: i64) -> Option<i64>
    ensures { result ≡ lesser_of least value }
{
    Some(match least {
        Some(best) => best.min(value),
        None => value,
    })
}

pub fn clear_prices(prices: &mut [i64])
    ensures { prices.new ≡ table (λ k. pos 0) (length prices.old) }
{
    prices.fill(0);
}

// The prices of a set of lines change.
fn shift_prices(lines: u64, change: i64, prices: &mut [i64])
    requires { Shifts lines change prices.old }
    ensures { prices.new ≡ shifted change lines prices.old }
{
    for line in sets::members(lines) {
        prices[line] += change;
    }
}

// An adjustment: covered rows become cheaper and uncovered columns dearer. A struct of the two sets and the two lists would be taken apart here and nowhere else.
pub fn adjust_prices(
    n: usize,
    rows: u64,
    columns: u64,
    change: i64,
    row_prices: &mut [i64],
    column_prices: &mut [i64],
)
    requires { AdjustsPrices n rows columns change row_prices.old column_prices.old }
    ensures { (row_prices.new ≡ lowered change rows row_prices.old) × (column_prices.new ≡ raised change columns column_prices.old) }
{
    shift_prices(sets::lines_alike(n, rows, true), -change, row_prices);
    shift_prices(sets::lines_alike(n, columns, false), change, column_prices);
}
