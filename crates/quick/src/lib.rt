// The quick solver: document 01's steps on keys, O(n) for a prime, with the answers and the buffers of the plain one.
#![tactic(auto)]

ghost use Rattle.steps.specs.Lent.{task, buffers};
ghost use Rattle.steps.specs.Promise.{Promise};

use ground::matrix::Matrix;
use ground::run::Run;
use keyed::opening::Opened;
use solvers::Steps;
use starred::stars::Stars;
use starred::values;
use steps::Answer;

mod step;

// Document 01's steps by keys.
pub struct ByKeys;

impl Steps for ByKeys {
    // The run from its start, and what its end shows: working values and marks are written then. In between `working` holds the keys of the costs.
    fn run(
        matrix: Matrix,
        budget: u32,
        working: &mut [i64],
        marks: &mut [u8],
        row_prices: &mut [i64],
        column_prices: &mut [i64],
    ) -> Run {
        let mut stars = Stars {
            star: [0; 64],
            owner: [0; 64],
            prime: [0; 64],
        };
        let mut opened = Opened {
            cheapest: [0; 64],
            key: [0; 64],
        };
        let begun = quick_steps::start(
            matrix,
            working,
            row_prices,
            column_prices,
            &mut stars,
            &mut opened,
        );
        let ended = step::run_steps(
            matrix,
            budget,
            begun,
            working,
            row_prices,
            column_prices,
            &mut stars,
            &mut opened,
        );
        values::write_working(matrix, row_prices, column_prices, working);
        stars.write_marks(matrix.n, marks);
        ended.run
    }
}

// Pairs n rows with n columns, each row with an allowed column of its own, at least total cost.
// Its parameters are those of `serbihun_solve`, which C calls.
pub fn solve_assignment(
    n: usize,
    costs: &[i32],
    mask: &[u8],
    budget: u32,
    working: &mut [i64],
    marks: &mut [u8],
    columns: &mut [u16],
    row_prices: &mut [i64],
    column_prices: &mut [i64],
) -> Answer
    ensures { Promise 64 (task n costs.now mask.now budget)
        (buffers working.old marks.old columns.old row_prices.old column_prices.old) result
        (buffers working.new marks.new columns.new row_prices.new column_prices.new) }
{
    solvers::solve_assignment::<ByKeys>(
        n,
        costs,
        mask,
        budget,
        working,
        marks,
        columns,
        row_prices,
        column_prices,
    )
}
