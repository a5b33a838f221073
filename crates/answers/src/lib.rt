// What a call gives back: the answer record, and the chosen columns. Only the solvers call it, so it may have a `requires`.
#![tactic(auto)]

ghost use Rattle.std.specs.Prelude.{◌≡◌, ◌+◌, ◌*◌, ◌<◌, pos};
ghost use Rattle.std.proofs.Math.Option.{some, map};
ghost use Rattle.lines.specs.Square.{table};
ghost use Rattle.assignment.specs.Problem.{total};
ghost use Rattle.steps.specs.Lent.{cost_at};
ghost use Rattle.steps.specs.Steps.{end_of, star_in_row};
ghost use Rattle.steps.specs.Outcome.{given, answer as outcome_answer};
ghost use Rattle.rules.specs.View.{view_stop};
ghost use Rattle.ground.specs.View.{view, view_next};
ghost use Rattle.answers.specs.Ends.{Inside, stop, Chooses, Finishes};

use ground::matrix::Matrix;
use ground::run::{Next, Run};
use ground::{marks, sets};
use rules::Stop;
use steps::Answer;

// An answer that says nothing: each of the others names what it says beside.
const NOTHING: Answer = Answer {
    number: 0,
    place: 0,
    total: 0,
    adjustments: 0,
    primes: 0,
    augmentations: 0,
    block_rows: 0,
    block_columns: 0,
};

// The column of each row's star is chosen. Returns the total.
fn choose_columns(matrix: Matrix, marks: &[u8], columns: &mut [u16]) -> i64
    requires { Chooses matrix.n matrix.costs.now marks.now columns.old }
    ensures { let m = matrix.entry in (columns.new ≡ table (star_in_row m.n marks.now) m.n)
        × (result ≡ total (cost_at m.n m.costs.now) m.n (table (star_in_row m.n marks.now) m.n)) }
{
    let n = matrix.n;
    let mut sum = 0i64;
    for row in 0..n {
        // Every row has a star.
        if let Some(column) = marks::find_first_star_in_row(n, marks, row) {
            columns[row] = column as u16;
            sum += i64::from(matrix.costs[row * n + column]);
        }
    }
    sum
}

// The counts of a run, in an answer that says nothing else.
fn counted(run: Run) -> Answer
    ensures { result ≡ outcome_answer 0 0 (pos 0) (view run) 0 0 }
{
    Answer {
        adjustments: run.adjustments,
        primes: run.primes,
        augmentations: run.augmentations,
        ..NOTHING
    }
}

// What is given back where the judgement stops the call.
pub fn stopped(n: usize, why: Stop) -> Answer
    requires { Inside n (view_stop why) }
    ensures { result ≡ stop n (view_stop why) }
{
    match why {
        Stop::Refused(refusal) => Answer {
            number: refusal.number(),
            place: refusal.place(),
            ..NOTHING
        },
        Stop::DeadRow(row) => Answer {
            number: 6,
            block_rows: sets::cover(0, row),
            block_columns: sets::all_lines(n),
            ..NOTHING
        },
    }
}

// What an end gives back.
pub fn finish(matrix: Matrix, run: Run, marks: &[u8], columns: &mut [u16]) -> Answer
    requires { Finishes matrix.n matrix.costs.now (view_next run.next) marks.now columns.old }
    ensures { let m = matrix.entry in map (given m.n (cost_at m.n m.costs.now) (view run) marks.now columns.old) (end_of (view_next run.next))
        ≡ some (result, columns.new) }
{
    let counts = counted(run);
    match run.next {
        Next::Paired => Answer {
            number: 0,
            total: choose_columns(matrix, marks, columns),
            ..counts
        },
        Next::NoPairing => Answer {
            number: 6,
            block_rows: sets::uncovered_lines(matrix.n, run.rows),
            block_columns: sets::uncovered_lines(matrix.n, run.columns),
            ..counts
        },
        _ => Answer {
            number: 7,
            ..counts
        },
    }
}
