// Step 5's path: its places are recorded first, and flipped then.
ghost use Rattle.std.specs.Prelude.{◌≡◌, ◌<◌, ◌≤◌, ◌*◌, ℕ, List, [], ◌∷◌, ◌++◌, length, get_or};
ghost use Rattle.steps.specs.Steps.{path as steps_path, flip};
ghost use Rattle.matrices.specs.Path.{zipped, Walks, Flips};

use crate::mark_matrix::{find_first_prime_in_row, find_first_star_in_column, toggle_star};
use std::marker::Model;

// The places on a path, in two arrays of rows and of columns. On 64 lines there are at most 64 primes and, between them, 63 stars.
#[derive(Drop)]
pub struct Path {
    rows: [usize; 127],
    columns: [usize; 127],
    count: usize,
}

impl Model for Path {
    ghost Value = { List (ℕ × ℕ) };

    ghost view = { λ path. zipped path.rows path.columns path.count };

    ghost invariant = { λ path. path.count ≤ 127 };
}

impl Path {
    fn empty() -> Path
        ensures { result ≡ [] }
    {
        Path {
            rows: [0; 127],
            columns: [0; 127],
            count: 0,
        }
    }

    fn push(&mut self, row: usize, column: usize)
        requires { length self.old < 127 }
        ensures { self.new ≡ self.old ++ (row, column) ∷ [] }
    {
        self.rows[self.count] = row;
        self.columns[self.count] = column;
        self.count += 1;
    }

    pub fn len(&self) -> usize
        ensures { result ≡ length self.now }
    {
        self.count
    }

    pub fn place(&self, k: usize) -> (usize, usize)
        requires { k < length self.now }
        ensures { result ≡ get_or self.now k (0, 0) }
    {
        let Path { rows, columns, .. } = self;
        (rows[k], columns[k])
    }
}

// From the prime at (row, column) to the star in its column, to the prime in that star's row, and so on.
pub fn find_path(n: usize, marks: &[u8], row: usize, column: usize) -> Path
    requires { Walks n marks.now row column }
    ensures whole { result ≡ steps_path n marks.now n row column }
    ensures few { length result < 2 * n }
{
    let mut path = Path::empty();
    let mut i = row;
    let mut j = column;
    loop {
        path.push(i, j);
        let Some(star) = find_first_star_in_column(n, marks, j) else {
            return path;
        };
        path.push(star, j);
        // The row of each star on the way has a prime.
        let Some(prime) = find_first_prime_in_row(n, marks, star) else {
            return path;
        };
        i = star;
        j = prime;
    }
}

pub fn toggle_path(n: usize, marks: &mut [u8], path: &Path)
    requires { Flips n marks.old path.now }
    ensures { marks.new ≡ flip n marks.old path.now }
{
    for k in 0..path.len() {
        let (row, column) = path.place(k);
        toggle_star(marks, row * n + column);
    }
}
