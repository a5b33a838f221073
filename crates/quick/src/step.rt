// The run from step to step: which of the steps is next, until an end. The buffers that are written are passed one by one, as a struct of them would have each
// contract say that it holds the same references still; keys and prices come together (`Priced`) where they are only read.
ghost use Rattle.quick.specs.Shown.{HeldBy, Turned, Reached, shown_by};

use ground::matrix::Matrix;
use ground::run::Next;
use keyed::opening::{Opened, Priced};
use quick_steps::State;
use starred::stars::Stars;

// Of the matrix only the size is read: costs and mask say what is simulated.
fn step(
    matrix: Matrix,
    budget: u32,
    state: State,
    keys: &[i64],
    row_prices: &mut [i64],
    column_prices: &mut [i64],
    stars: &mut Stars,
    opened: &mut Opened,
) -> State
    requires { HeldBy matrix.n matrix.costs.now matrix.mask.now budget state keys.now row_prices.old column_prices.old stars.old opened.old }
    ensures { let m = matrix.entry in
        Turned m.n m.costs.now m.mask.now budget (shown_by m.n m.costs.now m.mask.now state row_prices.old column_prices.old stars.old) result
        keys.now row_prices.new column_prices.new stars.new opened.new }
{
    let n = matrix.n;
    let priced = Priced {
        n,
        keys,
        row_prices,
        column_prices,
    };
    match state.run.next {
        Next::Step3 => state.step_3(priced, stars, opened),
        Next::Step4 => state.step_4(priced, stars, opened),
        Next::Step5(row, column) => state.step_5(n, row, column, stars),
        Next::Step6 => state.step_6(n, budget, row_prices, column_prices),
        Next::Paired | Next::NoPairing | Next::Unfinished => state,
    }
}

// Step after step, until an end.
pub(crate) fn run_steps(
    matrix: Matrix,
    budget: u32,
    begun: State,
    keys: &[i64],
    row_prices: &mut [i64],
    column_prices: &mut [i64],
    stars: &mut Stars,
    opened: &mut Opened,
) -> State
    requires { HeldBy matrix.n matrix.costs.now matrix.mask.now budget begun keys.now row_prices.old column_prices.old stars.old opened.old }
    ensures { let m = matrix.entry in
        Reached m.n m.costs.now m.mask.now budget (shown_by m.n m.costs.now m.mask.now begun row_prices.old column_prices.old stars.old) result
        keys.now row_prices.new column_prices.new stars.new opened.new }
{
    let mut state = begun;
    'steps: while !state.run.next.is_over() {
        state = step(
            matrix,
            budget,
            state,
            keys,
            row_prices,
            column_prices,
            stars,
            opened,
        );
    }
    state
}
