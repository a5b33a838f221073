// What the steps search among the marks and change in them.
ghost use Rattle.std.specs.Prelude.{◌≡◌, cond, ◌+◌, ◌*◌, ◌<◌, eqb, length, get_or, set};
ghost use Rattle.lines.specs.First.{found};
ghost use Rattle.steps.specs.Steps.{star_in_column, prime_in_row, clear_primes};
ghost use Rattle.ground.specs.Square.{Square};

use ground::marks::{PRIME, STAR, UNMARKED, find_first_mark_in_row};

pub(crate) fn find_first_prime_in_row(n: usize, marks: &[u8], row: usize) -> Option<usize>
    requires { Square n marks.now × (row < n) }
    ensures { result ≡ found n (prime_in_row n marks.now row) }
{
    find_first_mark_in_row(n, marks, row, PRIME)
}

pub(crate) fn find_first_star_in_column(n: usize, marks: &[u8], column: usize) -> Option<usize>
    requires { Square n marks.now × (column < n) }
    ensures { result ≡ found n (star_in_column n marks.now column) }
{
    for row in 0..n {
        if marks[row * n + column] == STAR {
            return Some(row);
        }
    }
    None
}

// A star goes, and anything else becomes one.
pub(crate) fn toggle_star(marks: &mut [u8], place: usize)
    requires { place < length marks.old }
    ensures { marks.new ≡ set marks.old place (cond (eqb (get_or marks.old place 0) 1) 0 1) }
{
    marks[place] = if marks[place] == STAR { UNMARKED } else { STAR };
}

pub fn clear_primes(marks: &mut [u8])
    ensures { marks.new ≡ clear_primes marks.old }
{
    for mark in marks.iter_mut() {
        if *mark == PRIME {
            *mark = UNMARKED;
        }
    }
}
