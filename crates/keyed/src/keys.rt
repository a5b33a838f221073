// Keys: a value, a column and a row in one number, in the order of value, then column, then row. A forbidden cell's key is far.
ghost use Rattle.std.specs.Prelude.{◌≡◌, true, cond, ℕ, ◌<◌, eqb, pos, ◌≤ℤ◌, get_or};
ghost use Rattle.std.specs.Int.Signed.{lt_z};
ghost use Rattle.lines.specs.Square.{square};
ghost use Rattle.steps.specs.Lent.{allows, cost_at};
ghost use Rattle.keyed.specs.Asks.{Fills, Packs, LessPrices};
ghost use Rattle.keyed.specs.Filled.{FilledRow, CheapestIn};
ghost use Rattle.keyed.specs.Keys.{pack as keys_pack, value_of, column_of, row_of, entry as keys_entry, names_zero, less_prices, far as keys_far, limit};

use ground::matrix::Matrix;

fn pack(value: i64, column: usize, row: usize) -> i64
    requires { Packs value column row }
    ensures { result ≡ keys_pack 64 value column row }
{
    value * 4096 + (column * 64 + row) as i64
}

// Above every key of an allowed cell, with any price taken off: the key of none, so that the least of some keys is taken without a test.
pub const FAR: i64 = 4_611_686_018_427_387_904;

// Can it be the key of an allowed cell?
pub fn is_near(key: i64) -> bool
    ensures { result ≡ lt_z key limit }
{
    key < 2_305_843_009_213_693_952
}

pub fn value_of(key: i64) -> i64
    requires { pos 0 ≤ℤ key }
    ensures { result ≡ value_of 64 key }
{
    (key as u64 / 4096) as i64
}

pub fn column_of(key: i64) -> usize
    requires { pos 0 ≤ℤ key }
    ensures { result ≡ column_of 64 key }
{
    (key as u64 / 64 % 64) as usize
}

pub fn row_of(key: i64) -> usize
    requires { pos 0 ≤ℤ key }
    ensures { result ≡ row_of 64 key }
{
    (key as u64 % 64) as usize
}

// Does the least key name a zero, an open cell whose value is no more than what has risen?
pub fn names_zero(best: i64, risen: i64) -> bool
    requires { lt_z best limit ≡ true → pos 0 ≤ℤ best }
    ensures { result ≡ names_zero 64 best risen }
{
    is_near(best) && value_of(best) <= risen
}

// The key of a cost, or far.
fn entry(cost: i32, byte: u8, column: usize, row: usize) -> i64
    requires { (column < 64) × (row < 64) }
    ensures { result ≡ cond (eqb byte 1) (keys_pack 64 cost column row) keys_far }
{
    if byte == 1 {
        pack(i64::from(cost), column, row)
    } else {
        FAR
    }
}

// The keys of the costs of one row, each in its column of the table. Returns the first column in which the row is cheapest; n where none is allowed, as the array
// holds it that takes the result.
fn fill_row(matrix: Matrix, row: usize, keys: &mut [i64]) -> usize
    requires { Fills matrix.n matrix.costs.now matrix.mask.now keys.old × (row < matrix.n) }
    ensures { let m = matrix.entry in FilledRow m.n (allows m.n m.mask.now) (cost_at m.n m.costs.now) row keys.old keys.new
        × CheapestIn m.n (allows m.n m.mask.now) (cost_at m.n m.costs.now) row result }
{
    let Matrix { n, costs, mask } = matrix;
    let start = row * n;
    let mut cheapest = n;
    let mut least = FAR;
    for column in 0..n {
        let place = start + column;
        let here = entry(costs[place], mask[place], column, row);
        keys[column * n + row] = here;
        if here < least {
            least = here;
            cheapest = column;
        }
    }
    cheapest
}

// The keys of the costs, column by column, and where each row is cheapest.
pub fn fill(matrix: Matrix, keys: &mut [i64], cheapest: &mut [usize; 64])
    requires { Fills matrix.n matrix.costs.now matrix.mask.now keys.old }
    ensures { let m = matrix.entry in (keys.new ≡ square (keys_entry 64 (allows m.n m.mask.now) (cost_at m.n m.costs.now)) m.n)
        × ((i : ℕ) → i < m.n → CheapestIn m.n (allows m.n m.mask.now) (cost_at m.n m.costs.now) i (get_or cheapest.new i 0)) }
{
    for row in 0..matrix.n {
        cheapest[row] = fill_row(matrix, row, keys);
    }
}

// What is left of an entry with prices taken off.
pub fn less_prices(entry: i64, row_price: i64, price: i64) -> i64
    requires { LessPrices entry row_price price }
    ensures { result ≡ less_prices 64 entry row_price price }
{
    entry - (row_price + price) * 4096
}
