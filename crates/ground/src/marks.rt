// Marks, row by row: a byte for each cell, as C lends them.
ghost use Rattle.std.specs.Prelude.{◌≡◌, ◌<◌, eqb};
ghost use Rattle.lines.specs.First.{first, found};
ghost use Rattle.lines.specs.Square.{cell};
ghost use Rattle.steps.specs.Steps.{star_in_row};
ghost use Rattle.ground.specs.Square.{Square};

pub const UNMARKED: u8 = 0;

pub const STAR: u8 = 1;

pub const PRIME: u8 = 2;

pub fn find_first_mark_in_row(n: usize, marks: &[u8], row: usize, mark: u8) -> Option<usize>
    requires { Square n marks.now × (row < n) }
    ensures { result ≡ found n (first (λ j. eqb (cell 0 n marks.now row j) mark) n) }
{
    let start = row * n;
    marks[start..start + n].iter().position(|m| *m == mark)
}

pub fn find_first_star_in_row(n: usize, marks: &[u8], row: usize) -> Option<usize>
    requires { Square n marks.now × (row < n) }
    ensures { result ≡ found n (star_in_row n marks.now row) }
{
    find_first_mark_in_row(n, marks, row, STAR)
}
