// A case read and solved: which fragment goes with which event. Of the solver only its promise is known here.
#![tactic(auto)]

ghost use Rattle.std.specs.Prelude.{◌≡◌, true, ◌&&◌, ◌*◌, ◌≤◌, take};
ghost use Rattle.steps.specs.Lent.{buffers};
ghost use Rattle.steps.specs.Refusal.{has_room};
ghost use Rattle.storm_case.specs.Refused.{number_of};
ghost use Rattle.storm_case.specs.Case.{has_cells};
ghost use Rattle.pairing.specs.Pair.{loan, enough_room, unpaired as pair_unpaired, paired as pair_paired, enough as pair_enough, SolvedBy, PairPromise};

mod room;

pub use room::Room;
use steps::Answer;
use storm_case::{Refusal, Rule, Size};

// What C gets: 0 paired, 6 no pairing, or the number of a refusal with its place; the size and the window; the summed clock difference at 0; the block at 6.
#[repr(C)]
#[derive(Drop)]
pub struct Pairs {
    pub number: u32,
    pub place: usize,
    pub n: usize,
    pub window: u32,
    pub total: i64,
    pub block_rows: u64,
    pub block_columns: u64,
}

fn unpaired(refusal: Refusal) -> Pairs
    ensures { result ≡ pair_unpaired (number_of refusal.rule) refusal.place }
{
    Pairs {
        number: refusal.rule.number(),
        place: refusal.place,
        n: 0,
        window: 0,
        total: 0,
        block_rows: 0,
        block_columns: 0,
    }
}

fn paired(size: Size, answer: Answer) -> Pairs
    ensures { result ≡ pair_paired size.n size.window answer }
{
    Pairs {
        number: answer.number,
        place: answer.place,
        n: size.n,
        window: size.window,
        total: answer.total,
        block_rows: answer.block_rows,
        block_columns: answer.block_columns,
    }
}

// A budget that always suffices.
fn enough(n: usize) -> u32
    requires { n ≤ 64 }
    ensures { result ≡ pair_enough n }
{
    (n * n.saturating_sub(1) / 2) as u32
}

// Exactly 4,096 places for each square and 64 for each line?
fn has_room(costs: usize, mask: usize, rest: rules::Room) -> bool
    ensures { result ≡ (has_cells costs mask && has_room 4096 64 rest.working rest.marks rest.columns rest.row_prices rest.column_prices) }
{
    storm_case::has_cells(costs, mask) && rules::has_room(4096, 64, rest)
}

// Solves the first n * n cells, on the front of the buffers, one by one as C lends them.
fn solve_cells(
    size: Size,
    costs: &[i32],
    mask: &[u8],
    working: &mut [i64],
    marks: &mut [u8],
    columns: &mut [u16],
    row_prices: &mut [i64],
    column_prices: &mut [i64],
) -> Pairs
    requires { (size.n ≤ 64) × (enough_room (loan costs.now mask.now
        (buffers working.old marks.old columns.old row_prices.old column_prices.old)) ≡ true) }
    ensures { SolvedBy size.n (take (size.n * size.n) costs.now) (take (size.n * size.n) mask.now) size.window
        (buffers working.old marks.old columns.old row_prices.old column_prices.old) result
        (buffers working.new marks.new columns.new row_prices.new column_prices.new) }
{
    let n = size.n;
    let cells = n * n;
    let answer = quick::solve_assignment(
        n,
        &costs[..cells],
        &mask[..cells],
        enough(n),
        &mut working[..cells],
        &mut marks[..cells],
        &mut columns[..n],
        &mut row_prices[..n],
        &mut column_prices[..n],
    );
    paired(size, answer)
}

// Pairs the fragments of a file with its events. The buffers come one by one, as C lends them (`serbihun_pair_case`).
pub fn pair_case(
    file: &[u8],
    costs: &mut [i32],
    mask: &mut [u8],
    working: &mut [i64],
    marks: &mut [u8],
    columns: &mut [u16],
    row_prices: &mut [i64],
    column_prices: &mut [i64],
) -> Pairs
    ensures { PairPromise file.now (loan costs.old mask.old
        (buffers working.old marks.old columns.old row_prices.old column_prices.old)) result
        (loan costs.new mask.new
        (buffers working.new marks.new columns.new row_prices.new column_prices.new)) }
{
    let rest = rules::Room {
        working: working.len(),
        marks: marks.len(),
        columns: columns.len(),
        row_prices: row_prices.len(),
        column_prices: column_prices.len(),
    };
    if !has_room(costs.len(), mask.len(), rest) {
        return unpaired(Rule::Room.at(0));
    }
    match storm_case::read_case(file, costs, mask) {
        Ok(size) => solve_cells(
            size,
            costs,
            mask,
            working,
            marks,
            columns,
            row_prices,
            column_prices,
        ),
        Err(refusal) => unpaired(refusal),
    }
}
