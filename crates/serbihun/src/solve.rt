// The C face of the solvers: `serbihun_solve`, and the port by its steps, with the costs as bytes.
ghost use Rattle.steps.specs.Promise.{Promise};
ghost use Rattle.steps.specs.Lent.{task, buffers};
ghost use Rattle.cost_bytes.specs.Bytes.{decoded};

use cost_bytes::{cells_to_read, decode};
use munkres::BySteps;
use quick::ByKeys;
use solvers::{Steps, solve_assignment};
use steps::Answer;

// `solve_assignment` with each cost as four little-endian bytes. Bytes of another number than 4 n n are a wrong length, answer 3. The buffers come one by one, as C lends them.
fn solve_bytes<S: Steps>(
    n: usize,
    costs: &[u8],
    mask: &[u8],
    budget: u32,
    working: &mut [i64],
    marks: &mut [u8],
    columns: &mut [u16],
    row_prices: &mut [i64],
    column_prices: &mut [i64],
) -> Answer
    ensures { Promise 64 (task n (decoded costs.now) mask.now budget)
        (buffers working.old marks.old columns.old row_prices.old column_prices.old) result
        (buffers working.new marks.new columns.new row_prices.new column_prices.new) }
{
    let cells = cells_to_read(n, costs.len());
    let mut numbers = [0i32; 4096];
    decode(cells, costs, &mut numbers);
    solve_assignment::<S>(
        n,
        &numbers[..cells],
        mask,
        budget,
        working,
        marks,
        columns,
        row_prices,
        column_prices,
    )
}

// Pairs n rows with n columns at least total cost.
#[unsafe(no_mangle)]
pub extern "C" fn serbihun_solve(
    n: usize,
    costs: &[u8],
    mask: &[u8],
    budget: u32,
    working: &mut [i64],
    marks: &mut [u8],
    columns: &mut [u16],
    row_prices: &mut [i64],
    column_prices: &mut [i64],
) -> Answer
    ensures { Promise 64 (task n (decoded costs.now) mask.now budget)
        (buffers working.old marks.old columns.old row_prices.old column_prices.old) result
        (buffers working.new marks.new columns.new row_prices.new column_prices.new) }
{
    solve_bytes::<ByKeys>(
        n,
        costs,
        mask,
        budget,
        working,
        marks,
        columns,
        row_prices,
        column_prices,
    )
}

// The same, for an inspector who wants to watch the steps: the solver that goes by them.
#[unsafe(no_mangle)]
pub extern "C" fn serbihun_solve_by_steps(
    n: usize,
    costs: &[u8],
    mask: &[u8],
    budget: u32,
    working: &mut [i64],
    marks: &mut [u8],
    columns: &mut [u16],
    row_prices: &mut [i64],
    column_prices: &mut [i64],
) -> Answer
    ensures { Promise 64 (task n (decoded costs.now) mask.now budget)
        (buffers working.old marks.old columns.old row_prices.old column_prices.old) result
        (buffers working.new marks.new columns.new row_prices.new column_prices.new) }
{
    solve_bytes::<BySteps>(
        n,
        costs,
        mask,
        budget,
        working,
        marks,
        columns,
        row_prices,
        column_prices,
    )
}
