// Document 01's steps on keys and lines, one method for each. Only quick calls them, so they may have a `requires`.
#![tactic(auto)]

ghost use Rattle.std.specs.Prelude.{◌≡◌, ◌≤◌, pos, length};
ghost use Rattle.lines.specs.Square.{table};
ghost use Rattle.steps.specs.Steps.{augmenting};
ghost use Rattle.ground.specs.View.{view};
ghost use Rattle.keyed.specs.Asks.{Safe};
ghost use Rattle.starred.specs.Flipping.{flipped};
ghost use Rattle.quick_steps.specs.Asks.{Starts, ForStep3, ForStep4, ForStep5, ForStep6};
ghost use Rattle.quick_steps.specs.Start.{Started};
ghost use Rattle.quick_steps.specs.Ways.{TakenUp, Crossed, Primed, Adjusted};

use ground::matrix::Matrix;
use ground::prices;
use ground::run::{Next, Run};
use keyed::keys;
use keyed::opening::{Opened, Priced};
use starred::stars::Stars;
use starred::values;

// The run, what the adjustments of this phase add up to, and the least key. Between two phases both are 0, and nothing reads them.
#[derive(Clone, Copy)]
pub struct State {
    pub run: Run,
    pub risen: i64,
    pub best: i64,
}

// Steps 1 and 2: the prices and the stars that the run begins with, and the keys of the costs. Each buffer is written, so none is part of a `Priced` yet.
pub fn start(
    matrix: Matrix,
    keys: &mut [i64],
    row_prices: &mut [i64],
    column_prices: &mut [i64],
    stars: &mut Stars,
    opened: &mut Opened,
) -> State
    requires { Starts matrix.n matrix.costs.now matrix.mask.now keys.old row_prices.old column_prices.old }
    ensures started { let m = matrix.entry in
        Started m.n m.costs.now m.mask.now result keys.new row_prices.new column_prices.new stars.new.star stars.new.owner stars.new.prime opened.new.cheapest }
    ensures kept { opened.new.key ≡ opened.old.key }
{
    keys::fill(matrix, keys, &mut opened.cheapest);
    values::set_row_prices(matrix, &opened.cheapest, row_prices);
    prices::clear_prices(column_prices);
    stars.star_rows(matrix, row_prices, &opened.cheapest);
    stars.clear_primes(matrix.n);
    opened.cheapest.fill(matrix.n);
    State {
        run: Run::begun(),
        risen: 0,
        best: 0,
    }
}

// A run taken up at step 4, with what it has covered: keys and least key are made anew. No row's cheapest column is touched.
pub fn take_up(run: Run, priced: Priced, key: &mut [i64]) -> State
    requires safe { Safe priced.n (pos 0) priced.keys.now priced.row_prices.now priced.column_prices.now }
    requires long { priced.n ≤ length key.old }
    ensures { let p = priced.entry in TakenUp p.n run p.keys.now p.row_prices.now p.column_prices.now result key.new }
{
    let mut opened = Opened {
        cheapest: [0; 64],
        key: [0; 64],
    };
    let best = opened.open_uncovered(priced, run.rows, run.columns);
    key[..priced.n].copy_from_slice(&opened.key[..priced.n]);
    State {
        run,
        risen: 0,
        best,
    }
}

impl State {
    // The column of each star is covered; with n stars, finish. The other columns open.
    pub fn step_3(self, priced: Priced, stars: &Stars, opened: &mut Opened) -> State
        requires { ForStep3 priced.n priced.keys.now priced.row_prices.now priced.column_prices.now stars.now.star stars.now.owner opened.old.cheapest }
        ensures { let p = priced.entry in
            Crossed p.n self p.keys.now p.row_prices.now p.column_prices.now stars.now.star stars.now.owner opened.old.cheapest result opened.new.cheapest opened.new.key }
    {
        let columns = stars.starred_columns(priced.n);
        if stars.count_stars(priced.n) == priced.n {
            return State {
                run: self.run.crossing(columns, Next::Paired),
                risen: 0,
                best: 0,
            };
        }
        State {
            run: self.run.crossing(columns, Next::Step4),
            risen: 0,
            best: opened.open_columns(priced, columns),
        }
    }

    // The first uncovered zero, which the least key names, is primed. Where its row has a star, the row is covered and the star's column opens.
    pub fn step_4(self, priced: Priced, stars: &mut Stars, opened: &mut Opened) -> State
        requires { ForStep4 priced.n self priced.keys.now priced.row_prices.now priced.column_prices.now }
        ensures primed { let p = priced.entry in
            Primed p.n self p.keys.now p.row_prices.now p.column_prices.now stars.old.star stars.old.prime opened.old.key result stars.new.prime opened.new.key }
        ensures star { stars.new.star ≡ stars.old.star }
        ensures owner { stars.new.owner ≡ stars.old.owner }
        ensures cheapest { opened.new.cheapest ≡ opened.old.cheapest }
    {
        if !keys::names_zero(self.best, self.risen) {
            return State {
                run: self.run.to(Next::Step6),
                ..self
            };
        }
        let row = keys::row_of(self.best);
        let column = keys::column_of(self.best);
        stars.prime[row] = column;
        let starred = stars.star[row];
        if priced.n <= starred {
            return State {
                run: self.run.reaching(row, column),
                ..self
            };
        }
        let run = self.run.covering(row, starred);
        let price = values::difference(priced.column_prices[starred], self.risen);
        let least = opened.lower(priced, starred, price, run.rows);
        State {
            run,
            best: least,
            ..self
        }
    }

    // Every row on the path takes its prime's column; covers and primes are cleared.
    pub fn step_5(self, n: usize, row: usize, column: usize, stars: &mut Stars) -> State
        requires { ForStep5 n self row column stars.old.owner stars.old.prime }
        ensures run { view result.run ≡ augmenting (view self.run) }
        ensures flipped { (stars.new.star, stars.new.owner) ≡ flipped n stars.old.prime n stars.old.star stars.old.owner row column }
        ensures prime { stars.new.prime ≡ table (λ k. n) (length stars.old.prime) }
    {
        stars.flip_path(n, row, column);
        stars.clear_primes(n);
        State {
            run: self.run.augmenting(),
            risen: 0,
            best: 0,
        }
    }

    // By the least uncovered value, which the least key holds, covered rows become cheaper and uncovered columns dearer.
    pub fn step_6(
        self,
        n: usize,
        budget: u32,
        row_prices: &mut [i64],
        column_prices: &mut [i64],
    ) -> State
        requires { ForStep6 n budget self row_prices.old column_prices.old }
        ensures { Adjusted budget self row_prices.old column_prices.old result row_prices.new column_prices.new }
    {
        if !keys::is_near(self.best) {
            return State {
                run: self.run.to(Next::NoPairing),
                ..self
            };
        }
        if self.run.adjustments == budget {
            return State {
                run: self.run.to(Next::Unfinished),
                ..self
            };
        }
        let value = keys::value_of(self.best);
        let change = values::difference(value, self.risen);
        prices::adjust_prices(
            n,
            self.run.rows,
            self.run.columns,
            change,
            row_prices,
            column_prices,
        );
        State {
            run: self.run.adjusting(),
            risen: value,
            ..self
        }
    }
}
