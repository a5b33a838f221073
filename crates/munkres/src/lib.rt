// The solver by its steps: document 01's, as they are written.
#![tactic(auto)]

ghost use Rattle.steps.specs.Lent.{task, buffers};
ghost use Rattle.steps.specs.Promise.{Promise};

use ground::matrix::Matrix;
use ground::run::Run;
use solvers::Steps;
use steps::Answer;

mod step;

// Steps 1 and 2, then step by step to an end.
pub struct BySteps;

impl Steps for BySteps {
    fn run(
        matrix: Matrix,
        budget: u32,
        working: &mut [i64],
        marks: &mut [u8],
        row_prices: &mut [i64],
        column_prices: &mut [i64],
    ) -> Run {
        let begun = step::start(matrix, working, marks, row_prices, column_prices);
        step::run_steps(
            matrix,
            budget,
            begun,
            working,
            marks,
            row_prices,
            column_prices,
        )
    }
}

// Pairs n rows with n columns, each row with an allowed column of its own, at least total cost.
// Its parameters are those of `serbihun_solve_by_steps`, which C calls.
pub fn solve_assignment(
    n: usize,
    costs: &[i32],
    mask: &[u8],
    budget: u32,
    working: &mut [i64],
    marks: &mut [u8],
    columns: &mut [u16],
    row_prices: &mut [i64],
    column_prices: &mut [i64],
) -> Answer
    ensures { Promise 64 (task n costs.now mask.now budget)
        (buffers working.old marks.old columns.old row_prices.old column_prices.old) result
        (buffers working.new marks.new columns.new row_prices.new column_prices.new) }
{
    solvers::solve_assignment::<BySteps>(
        n,
        costs,
        mask,
        budget,
        working,
        marks,
        columns,
        row_prices,
        column_prices,
    )
}
