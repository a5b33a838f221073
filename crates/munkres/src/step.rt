// Document 01's steps 1 to 6, one function for each, and the run from step to step.
ghost use Rattle.std.specs.Prelude.{◌≡◌, ◌+◌, ◌*◌, ◌<◌, length};
ghost use Rattle.lines.specs.Square.{table, square};
ghost use Rattle.steps.specs.Lent.{allows, cost_at};
ghost use Rattle.steps.specs.Steps.{machine, step2, step3, step4, step5, step6, step as steps_step, start as steps_start};
ghost use Rattle.ground.specs.Square.{Grid};
ghost use Rattle.ground.specs.View.{view};
ghost use Rattle.ground.specs.Good.{ForStart, Good, Came};
ghost use Rattle.munkres.specs.ForSteps.{ForStep3, ForStep4, ForStep5, ForStep6};

use ground::marks::{PRIME, STAR, UNMARKED, find_first_star_in_row};
use ground::matrix::Matrix;
use ground::prices::{adjust_prices, clear_prices};
use ground::run::{Next, Run};
use ground::sets::cover;
use matrices::coverage::{find_uncovered_cell_column_row_order, find_zero_in_row};
use matrices::mark_matrix::clear_primes;
use matrices::path::{find_path, toggle_path};
use matrices::weight_matrix::{follow_prices, least_uncovered, sub_min_of_each_row};

// ---- steps 1 and 2

// Row by row, left to right, the first zero whose column has no star yet.
fn step_2(matrix: Matrix, working: &[i64], marks: &mut [u8])
    requires { Grid matrix.n matrix.mask.now working.now × (marks.old ≡ square (λ i j. 0) matrix.n) }
    ensures { let m = matrix.entry in marks.new ≡ step2 m.n (allows m.n m.mask.now) working.now (square (λ i j. 0) m.n) m.n }
{
    let mut taken = 0u64;
    for row in 0..matrix.n {
        if let Some(column) = find_zero_in_row(matrix, working, taken, row) {
            marks[row * matrix.n + column] = STAR;
            taken = cover(taken, column);
        }
    }
}

// Steps 1 and 2.
pub(crate) fn start(
    matrix: Matrix,
    working: &mut [i64],
    marks: &mut [u8],
    row_prices: &mut [i64],
    column_prices: &mut [i64],
) -> Run
    requires { ForStart matrix.n matrix.costs.now matrix.mask.now working.old marks.old row_prices.old column_prices.old }
    ensures { let m = matrix.entry in machine (view result) working.new marks.new row_prices.new column_prices.new
        ≡ steps_start m.n (allows m.n m.mask.now) (cost_at m.n m.costs.now) }
{
    sub_min_of_each_row(matrix, working, row_prices);
    clear_prices(column_prices);
    marks.fill(UNMARKED);
    step_2(matrix, working, marks);
    Run::begun()
}

// ---- steps 3 to 6

// The column of each star is covered; with n stars, finish.
fn step_3(n: usize, run: Run, marks: &[u8]) -> Run
    requires { ForStep3 n marks.now }
    ensures { view result ≡ step3 n marks.now (view run) }
{
    let mut columns = 0u64;
    let mut stars = 0;
    for row in 0..n {
        if let Some(column) = find_first_star_in_row(n, marks, row) {
            columns = cover(columns, column);
            stars += 1;
        }
    }
    let next = if stars == n {
        Next::Paired
    } else {
        Next::Step4
    };
    run.crossing(columns, next)
}

// The first uncovered zero is primed. Where its row has a star, the row is covered and the star's column uncovered.
fn step_4(matrix: Matrix, run: Run, working: &[i64], marks: &mut [u8]) -> Run
    requires { ForStep4 matrix.n matrix.mask.now run.primes working.now marks.old }
    ensures { let m = matrix.entry in (view result, marks.new) ≡ step4 m.n (allows m.n m.mask.now) working.now (view run) marks.old }
{
    let n = matrix.n;
    let found = find_uncovered_cell_column_row_order(matrix, working, run.rows, run.columns);
    let Some((row, column)) = found else {
        return run.to(Next::Step6);
    };
    marks[row * n + column] = PRIME;
    match find_first_star_in_row(n, marks, row) {
        Some(star) => run.covering(row, star),
        None => run.reaching(row, column),
    }
}

// Every place on the path is flipped; covers and primes are cleared.
fn step_5(n: usize, run: Run, row: usize, column: usize, marks: &mut [u8]) -> Run
    requires { ForStep5 n run.augmentations row column marks.old }
    ensures { (view result, marks.new) ≡ step5 n row column (view run) marks.old }
{
    let path = find_path(n, marks, row, column);
    toggle_path(n, marks, &path);
    clear_primes(marks);
    run.augmenting()
}

// By the least uncovered value, covered rows become cheaper and uncovered columns dearer.
fn step_6(
    matrix: Matrix,
    budget: u32,
    run: Run,
    working: &mut [i64],
    row_prices: &mut [i64],
    column_prices: &mut [i64],
) -> Run
    requires { ForStep6 matrix.n matrix.mask.now budget (view run) working.old row_prices.old column_prices.old }
    ensures { let m = matrix.entry in (view result, working.new, row_prices.new, column_prices.new)
        ≡ step6 m.n (allows m.n m.mask.now) budget (view run) working.old row_prices.old column_prices.old }
{
    let least = least_uncovered(matrix, working, run.rows, run.columns);
    let Some(change) = least else {
        return run.to(Next::NoPairing);
    };
    if run.adjustments == budget {
        return run.to(Next::Unfinished);
    }
    follow_prices(matrix, run.rows, run.columns, change, working);
    adjust_prices(
        matrix.n,
        run.rows,
        run.columns,
        change,
        row_prices,
        column_prices,
    );
    run.adjusting()
}

// ---- the run: the buffers are passed one by one, as a struct of them would have each contract say that it holds the same four references still

fn step(
    matrix: Matrix,
    budget: u32,
    run: Run,
    working: &mut [i64],
    marks: &mut [u8],
    row_prices: &mut [i64],
    column_prices: &mut [i64],
) -> Run
    requires { Good matrix.n matrix.mask.now budget (machine (view run) working.old marks.old row_prices.old column_prices.old) }
    ensures { let m = matrix.entry in machine (view result) working.new marks.new row_prices.new column_prices.new
        ≡ steps_step m.n (allows m.n m.mask.now) budget (machine (view run) working.old marks.old row_prices.old column_prices.old) }
{
    match run.next {
        Next::Step3 => step_3(matrix.n, run, marks),
        Next::Step4 => step_4(matrix, run, working, marks),
        Next::Step5(row, column) => step_5(matrix.n, run, row, column, marks),
        Next::Step6 => step_6(matrix, budget, run, working, row_prices, column_prices),
        Next::Paired | Next::NoPairing | Next::Unfinished => run,
    }
}

// Step after step, until an end.
pub(crate) fn run_steps(
    matrix: Matrix,
    budget: u32,
    run: Run,
    working: &mut [i64],
    marks: &mut [u8],
    row_prices: &mut [i64],
    column_prices: &mut [i64],
) -> Run
    requires { Good matrix.n matrix.mask.now budget (machine (view run) working.old marks.old row_prices.old column_prices.old) }
    ensures { let m = matrix.entry in Came m.n m.mask.now budget (machine (view run) working.old marks.old row_prices.old column_prices.old)
        (machine (view result) working.new marks.new row_prices.new column_prices.new) }
{
    let mut state = run;
    'steps: while !state.next.is_over() {
        state = step(
            matrix,
            budget,
            state,
            working,
            marks,
            row_prices,
            column_prices,
        );
    }
    state
}
