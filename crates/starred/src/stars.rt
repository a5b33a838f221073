// Stars and primes by lines, and what steps 2, 3 and 5 do with them.
ghost use Rattle.std.specs.Prelude.{◌≡◌, not, ◌&&◌, ℕ, ◌<◌, ◌≤◌, ltb, eqb, pos, ◌-ℤ◌, length, get_or};
ghost use Rattle.lines.specs.First.{first, found};
ghost use Rattle.lines.specs.Count.{count};
ghost use Rattle.lines.specs.Square.{table};
ghost use Rattle.lines.specs.Sets.{has};
ghost use Rattle.steps.specs.Lent.{allows, cost_at};
ghost use Rattle.steps.specs.Steps.{is_zero, star_in_row, star_in_column};
ghost use Rattle.ground.specs.Square.{Square};
ghost use Rattle.starred.specs.Columns.{starred};
ghost use Rattle.starred.specs.Written.{first_marks, marks_of, with_mark};
ghost use Rattle.starred.specs.Flipping.{flipped, Follows};
ghost use Rattle.starred.specs.Asks.{CostsPrice, StarsRows, StarsRow};

use ground::marks::{PRIME, STAR};
use ground::matrix::Matrix;
use ground::sets;

// The column of each row's star, the row of each column's star, the column of each row's prime; n where there is none. The definitions `flipped` and `marks_of` read
// them as lists of such numbers, and arrays of options would be twice as large.
#[derive(Drop)]
pub struct Stars {
    pub star: [usize; 64],
    pub owner: [usize; 64],
    pub prime: [usize; 64],
}

// Is the cell allowed, and does it cost just the row's price?
fn costs_price(matrix: Matrix, place: usize, price: i64) -> bool
    requires { CostsPrice place price matrix.costs.now matrix.mask.now }
    ensures { let m = matrix.entry in result ≡ (eqb (get_or m.mask.now place 1) 1 && is_zero (get_or m.costs.now place (pos 0) -ℤ price)) }
{
    matrix.mask[place] == 1 && i64::from(matrix.costs[place]) == price
}

// The row's first allowed column that is not taken and costs its price. No zero stands before `from`.
fn free_zero(matrix: Matrix, row: usize, price: i64, taken: u64, from: usize) -> Option<usize>
    requires { StarsRow matrix.n matrix.costs.now matrix.mask.now row price from }
    ensures { let m = matrix.entry in
        result ≡ found m.n (first (λ j. (allows m.n m.mask.now row j && is_zero (cost_at m.n m.costs.now row j -ℤ price)) && not (has taken j)) m.n) }
{
    let start = row * matrix.n;
    for column in from..matrix.n {
        if !lines::has(taken, column) && costs_price(matrix, start + column, price) {
            return Some(column);
        }
    }
    None
}

// A mark in a row, where the column is one.
fn put_mark(n: usize, row: usize, column: usize, mark: u8, marks: &mut [u8])
    requires { Square n marks.old × (row < n) }
    ensures { marks.new ≡ with_mark n row column mark marks.old }
{
    if column < n {
        marks[row * n + column] = mark;
    }
}

impl Stars {
    // Step 2: row by row, left to right, the first zero whose column has no star yet.
    pub fn star_rows(&mut self, matrix: Matrix, row_prices: &[i64], cheapest: &[usize; 64])
        requires { StarsRows matrix.n matrix.costs.now matrix.mask.now row_prices.now cheapest.now }
        ensures long { let n = matrix.entry.n in (n ≤ length self.new.star) × (n ≤ length self.new.owner) × (n ≤ length self.new.prime) }
        ensures star { let m = matrix.entry in (i : ℕ) → i < m.n → get_or self.new.star i 0 ≡ star_in_row m.n (first_marks m.n m.costs.now m.mask.now) i }
        ensures owner { let m = matrix.entry in (j : ℕ) → j < m.n → get_or self.new.owner j 0 ≡ star_in_column m.n (first_marks m.n m.costs.now m.mask.now) j }
        ensures prime { self.new.prime ≡ self.old.prime }
    {
        self.star.fill(matrix.n);
        self.owner.fill(matrix.n);
        let mut taken = 0u64;
        for row in 0..matrix.n {
            if let Some(column) = free_zero(matrix, row, row_prices[row], taken, cheapest[row]) {
                self.star[row] = column;
                self.owner[column] = row;
                taken = sets::cover(taken, column);
            }
        }
    }

    // No primes.
    pub fn clear_primes(&mut self, n: usize)
        ensures prime { self.new.prime ≡ table (λ k. n) (length self.old.prime) }
        ensures star { self.new.star ≡ self.old.star }
        ensures owner { self.new.owner ≡ self.old.owner }
    {
        self.prime.fill(n);
    }

    // The columns that have a star.
    pub fn starred_columns(&self, n: usize) -> u64
        requires { n ≤ 64 }
        ensures { result ≡ starred n self.now.owner }
    {
        let mut columns = 0u64;
        for column in 0..n {
            if self.owner[column] < n {
                columns = sets::cover(columns, column);
            }
        }
        columns
    }

    // How many rows have a star.
    pub fn count_stars(&self, n: usize) -> usize
        requires { n ≤ 64 }
        ensures { result ≡ count (λ i. ltb (get_or self.now.star i 0) n) n }
    {
        self.star[..n].iter().filter(|column| **column < n).count()
    }

    // From the prime at (row, column) to the star in its column, to the prime in that star's row, and so on: each row takes its prime's column. No row is met twice.
    pub fn flip_path(&mut self, n: usize, row: usize, column: usize)
        requires most { n ≤ 64 }
        requires follows { Follows n self.old.prime n self.old.owner row column }
        ensures flipped { (self.new.star, self.new.owner) ≡ flipped n self.old.prime n self.old.star self.old.owner row column }
        ensures prime { self.new.prime ≡ self.old.prime }
    {
        let mut here = row;
        let mut there = column;
        for _met in 0..n {
            let owner = self.owner[there];
            self.star[here] = there;
            self.owner[there] = here;
            if n <= owner {
                return;
            }
            here = owner;
            there = self.prime[owner];
        }
    }

    // The marks of all stars and primes, and no other.
    pub fn write_marks(&self, n: usize, marks: &mut [u8])
        requires most { n ≤ 64 }
        requires marks { Square n marks.old }
        ensures { marks.new ≡ marks_of n self.now.star self.now.prime }
    {
        marks.fill(0);
        for row in 0..n {
            put_mark(n, row, self.prime[row], PRIME, marks);
            put_mark(n, row, self.star[row], STAR, marks);
        }
    }
}
