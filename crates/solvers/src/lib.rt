// A solver, whichever makes its steps: what is lent is judged, the steps are made, and their end is given back.
#![tactic(auto)]

ghost use Rattle.steps.specs.Lent.{task, buffers, allows, cost_at};
ghost use Rattle.steps.specs.Steps.{machine, start};
ghost use Rattle.steps.specs.Promise.{Promise};
ghost use Rattle.ground.specs.View.{view};
ghost use Rattle.ground.specs.Good.{Came};
ghost use Rattle.solvers.specs.Run.{Begins};

use ground::matrix::Matrix;
use ground::run::Run;
use rules::Room;
use steps::Answer;

// The steps of a call that is accepted, from the start to an end, as document 01 says; how they are found is the solver's own. The budget is no part of the matrix, as step 6 alone reads it.
pub trait Steps {
    fn run(
        matrix: Matrix,
        budget: u32,
        working: &mut [i64],
        marks: &mut [u8],
        row_prices: &mut [i64],
        column_prices: &mut [i64],
    ) -> Run
        requires { Begins matrix.n matrix.costs.now matrix.mask.now budget working.old marks.old row_prices.old column_prices.old }
        ensures { let m = matrix.entry in Came m.n m.mask.now budget (start m.n (allows m.n m.mask.now) (cost_at m.n m.costs.now))
            (machine (view result) working.new marks.new row_prices.new column_prices.new) };
}

// Pairs n rows with n columns, each row with an allowed column of its own, at least total cost. All solvers keep one promise, so nothing but the time tells them apart.
// Its parameters are those of `serbihun_solve`, which C calls: that they are a matrix is known once they are judged.
pub fn solve_assignment<S: Steps>(
    n: usize,
    costs: &[i32],
    mask: &[u8],
    budget: u32,
    working: &mut [i64],
    marks: &mut [u8],
    columns: &mut [u16],
    row_prices: &mut [i64],
    column_prices: &mut [i64],
) -> Answer
    ensures { Promise 64 (task n costs.now mask.now budget)
        (buffers working.old marks.old columns.old row_prices.old column_prices.old) result
        (buffers working.new marks.new columns.new row_prices.new column_prices.new) }
{
    let room = Room {
        working: working.len(),
        marks: marks.len(),
        columns: columns.len(),
        row_prices: row_prices.len(),
        column_prices: column_prices.len(),
    };
    match rules::judge_call(64, n, costs, mask, room) {
        Ok(()) => {
            let matrix = Matrix { n, costs, mask };
            let run = S::run(matrix, budget, working, marks, row_prices, column_prices);
            answers::finish(matrix, run, marks, columns)
        }
        Err(why) => answers::stopped(n, why),
    }
}
