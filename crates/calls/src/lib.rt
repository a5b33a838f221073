// A stored call: what is lent to a solver, and what must come out. Both solvers make it, each in buffers of its own, and are held to what is said.
// The programs that read stored calls stand on this, and they alone: they see to it that no list is longer than its room.
#![tactic(auto)]

mod numbers;

ghost use Rattle.std.specs.Prelude.{◌≡◌, true};
ghost use Rattle.calls.specs.Kept.{Fits, Kept};
ghost use Rattle.calls.specs.Numbers.{SaysAnswer};

use munkres::BySteps;
pub use numbers::{
    ALL, ANSWER, CELLS, COLUMN_PRICES, COLUMNS, COSTS, LINES, MARKS, MASK, Numbers, ROW_PRICES,
    WORKING, put, says,
};
use numbers::{costs_of, mask_of};
use quick::ByKeys;
use solvers::{Steps, solve_assignment};
use steps::Answer;

// How long each list is.
#[derive(Clone, Copy)]
pub struct Lengths {
    pub costs: usize,
    pub mask: usize,
    pub working: usize,
    pub marks: usize,
    pub columns: usize,
    pub row_prices: usize,
    pub column_prices: usize,
}

// What the buffers hold before the call.
#[derive(Clone, Copy)]
pub struct Before {
    pub working: i64,
    pub mark: u8,
    pub column: u16,
    pub price: i64,
}

// A call but for its numbers. Marks may be left open.
#[derive(Clone, Copy)]
pub struct Call {
    pub n: usize,
    pub budget: u32,
    pub lengths: Lengths,
    pub before: Before,
    pub marks_said: bool,
}

fn is_answer(said: &Numbers, answer: Answer) -> bool
    ensures { result ≡ true → SaysAnswer said.now answer }
{
    let numbers = [
        i64::from(answer.number),
        (answer.place as u64).cast_signed(),
        i64::from(answer.adjustments),
        i64::from(answer.primes),
        i64::from(answer.augmentations),
        answer.total,
        answer.block_rows.cast_signed(),
        answer.block_columns.cast_signed(),
    ];
    says(said, ANSWER, &numbers)
}

// Costs and mask must be as they were lent.
fn is_kept_by<S: Steps>(call: Call, said: &Numbers) -> bool
    requires { Fits call.lengths }
    ensures { result ≡ true → Kept call said.now }
{
    let lengths = call.lengths;
    let before = call.before;
    let costs = costs_of(said, lengths.costs);
    let mask = mask_of(said, lengths.mask);
    let costs = &costs[..lengths.costs];
    let mask = &mask[..lengths.mask];
    let mut working = [before.working; CELLS];
    let working = &mut working[..lengths.working];
    let mut marks = [before.mark; CELLS];
    let marks = &mut marks[..lengths.marks];
    let mut columns = [before.column; LINES];
    let columns = &mut columns[..lengths.columns];
    let mut row_prices = [before.price; LINES];
    let row_prices = &mut row_prices[..lengths.row_prices];
    let mut column_prices = [before.price; LINES];
    let column_prices = &mut column_prices[..lengths.column_prices];
    let answer = solve_assignment::<S>(
        call.n,
        costs,
        mask,
        call.budget,
        working,
        marks,
        columns,
        row_prices,
        column_prices,
    );
    is_answer(said, answer)
        & says(said, COSTS, costs)
        & says(said, MASK, mask)
        & says(said, WORKING, working)
        & (!call.marks_said | says(said, MARKS, marks))
        & says(said, COLUMNS, columns)
        & says(said, ROW_PRICES, row_prices)
        & says(said, COLUMN_PRICES, column_prices)
}

// By both solvers.
pub fn is_kept(call: Call, said: &Numbers) -> bool
    requires { Fits call.lengths }
    ensures { result ≡ true → Kept call said.now }
{
    is_kept_by::<BySteps>(call, said) & is_kept_by::<ByKeys>(call, said)
}
