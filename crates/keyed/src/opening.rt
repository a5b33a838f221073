// Each row's cheapest column without a star, kept from phase to phase: these columns move together, so it is looked for anew only where it has got its star.
ghost use Rattle.std.specs.Prelude.{◌≡◌, ℕ, ◌<◌, pos, get_or};
ghost use Rattle.keyed.specs.Asks.{Safe, Lowers, Searches, Chooses, OpensColumns};
ghost use Rattle.std.specs.Int.{int_min};
ghost use Rattle.keyed.specs.Keys.{lowered_key, least_key};
ghost use Rattle.keyed.specs.Opening.{term_at, own_term, Cheapest, Known, Opens};

use crate::keys;
use ground::sets;

// The table of keys, and the prices that are taken off them.
#[derive(Clone, Copy)]
pub struct Priced<'a> {
    pub n: usize,
    pub keys: &'a [i64],
    pub row_prices: &'a [i64],
    pub column_prices: &'a [i64],
}

// Of each row the column in which it is cheapest, and its least key. No column known is n: an array of options would be twice as large.
#[derive(Drop)]
pub struct Opened {
    pub cheapest: [usize; 64],
    pub key: [i64; 64],
}

impl<'a> Priced<'a> {
    // What a row has in a column at its price.
    fn key_at(self, row: usize, column: usize) -> i64
        requires safe { Safe self.n (pos 0) self.keys.now self.row_prices.now self.column_prices.now }
        requires row_below { row < self.n }
        requires column_below { column < self.n }
        ensures { let p = self.entry in result ≡ own_term p.n p.keys.now p.row_prices.now p.column_prices.now column row }
    {
        keys::less_prices(
            self.keys[column * self.n + row],
            self.row_prices[row],
            self.column_prices[column],
        )
    }

    // The cheapest column of a row, but those of a set.
    fn search_row(self, columns: u64, row: usize) -> usize
        requires { Searches self.n columns self.keys.now self.row_prices.now self.column_prices.now row }
        ensures { let p = self.entry in Cheapest p.n columns p.keys.now p.row_prices.now p.column_prices.now row result }
    {
        let open = sets::uncovered_lines(self.n, columns);
        let mut cheapest = sets::lowest_line(open);
        let mut least = self.key_at(row, cheapest);
        for column in sets::members(sets::without_lowest(open)) {
            let here = self.key_at(row, column);
            if here < least {
                least = here;
                cheapest = column;
            }
        }
        cheapest
    }

    // The column that is known, where it is one and still open.
    fn cheapest_column(self, columns: u64, row: usize, known: usize) -> usize
        requires { Chooses self.n columns self.keys.now self.row_prices.now self.column_prices.now row known }
        ensures { let p = self.entry in Cheapest p.n columns p.keys.now p.row_prices.now p.column_prices.now row result }
    {
        if known < self.n {
            if !lines::has(columns, known) {
                return known;
            }
        }
        self.search_row(columns, row)
    }
}

impl Opened {
    // A column opens: the keys of the uncovered rows fall to what they have in it. Returns the least of them.
    pub fn lower(&mut self, priced: Priced, column: usize, price: i64, rows: u64) -> i64
        requires { Lowers priced.n priced.keys.now priced.row_prices.now column price }
        ensures keys { let p = priced.entry in (i : ℕ) → i < p.n
            → get_or self.new.key i (pos 0) ≡ lowered_key rows (term_at p.n p.keys.now p.row_prices.now column price) i (get_or self.old.key i (pos 0)) }
        ensures least { let p = priced.entry in
            result ≡ least_key rows (λ i. int_min (get_or self.old.key i (pos 0)) (term_at p.n p.keys.now p.row_prices.now column price i)) p.n }
        ensures kept { self.new.cheapest ≡ self.old.cheapest }
    {
        let start = column * priced.n;
        let in_column = &priced.keys[start..start + priced.n];
        let mut best = keys::FAR;
        for row in sets::members(sets::uncovered_lines(priced.n, rows)) {
            let term = keys::less_prices(in_column[row], priced.row_prices[row], price);
            let here = self.key[row].min(term);
            self.key[row] = here;
            best = best.min(here);
        }
        best
    }

    // Every column but those of a set opens, at the price that it has: a row's key is what it has in its cheapest one. Returns the least key.
    pub fn open_columns(&mut self, priced: Priced, columns: u64) -> i64
        requires { OpensColumns priced.n columns priced.keys.now priced.row_prices.now priced.column_prices.now self.old.cheapest }
        ensures opens { let p = priced.entry in Opens p.n 0 columns p.keys.now p.row_prices.now p.column_prices.now self.new.key result }
        ensures known { let p = priced.entry in Known p.n columns p.keys.now p.row_prices.now p.column_prices.now self.new.cheapest }
    {
        let mut best = keys::FAR;
        for row in 0..priced.n {
            let column = priced.cheapest_column(columns, row, self.cheapest[row]);
            let here = priced.key_at(row, column);
            self.cheapest[row] = column;
            self.key[row] = here;
            best = best.min(here);
        }
        best
    }

    // The same in the midst of a phase, when columns with a star may be open too: all that is not covered opens, column after column.
    pub fn open_uncovered(&mut self, priced: Priced, rows: u64, columns: u64) -> i64
        requires { Safe priced.n (pos 0) priced.keys.now priced.row_prices.now priced.column_prices.now }
        ensures opens { let p = priced.entry in Opens p.n rows columns p.keys.now p.row_prices.now p.column_prices.now self.new.key result }
        ensures kept { self.new.cheapest ≡ self.old.cheapest }
    {
        self.key.fill(keys::FAR);
        let mut best = keys::FAR;
        for column in sets::members(sets::uncovered_lines(priced.n, columns)) {
            best = self.lower(priced, column, priced.column_prices[column], rows);
        }
        best
    }
}
