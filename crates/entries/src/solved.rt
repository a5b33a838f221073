// A case as the solver leaves it: what the lists and the block read.
ghost use Rattle.std.specs.Prelude.{◌≡◌, ◌+◌, ◌*◌, ◌≤◌, ◌<◌, eqb, pos, get_or};
ghost use Rattle.lines.specs.Square.{cell};
ghost use Rattle.entries.specs.Places.{InList};

use crate::Prices;

// How large it is, and its window; the huts by row; of each cell its difference, whether it may be paired, and what its pair has to
// spare; by row the event and the price, and by event the price. Only the first n lines and n * n cells say something.
#[derive(Drop)]
pub struct Solved {
    pub n: usize,
    pub window: u32,
    pub huts: [u16; 64],
    pub costs: [i32; 4096],
    pub mask: [u8; 4096],
    pub working: [i64; 4096],
    pub columns: [u16; 64],
    pub row_prices: [i64; 64],
    pub column_prices: [i64; 64],
    pub ghost small: { n ≤ 64 },
}

impl Solved {
    // Where the cell of a row and an event stands.
    fn place(&self, row: usize, event: usize) -> usize
        requires { InList self.now.n row event }
        ensures value { result ≡ row * self.now.n + event }
        ensures inside { result < 4096 }
    {
        row * self.n + event
    }

    // May a row be paired with an event?
    pub fn may_pair(&self, row: usize, event: usize) -> bool
        requires { InList self.now.n row event }
        ensures { result ≡ eqb (cell 0 self.now.n self.now.mask row event) 1 }
    {
        self.mask[self.place(row, event)] == 1
    }

    // What a pair has to spare.
    pub fn spare(&self, row: usize, event: usize) -> i64
        requires { InList self.now.n row event }
        ensures { result ≡ cell (pos 0) self.now.n self.now.working row event }
    {
        self.working[self.place(row, event)]
    }

    // The difference of a row and an event, and their prices.
    pub fn prices(&self, row: usize, event: usize) -> Prices
        requires { InList self.now.n row event }
        ensures difference { result.difference ≡ cell (pos 0) self.now.n self.now.costs row event }
        ensures row_price { result.row_price ≡ get_or self.now.row_prices row (pos 0) }
        ensures event_price { result.event_price ≡ get_or self.now.column_prices event (pos 0) }
    {
        Prices {
            difference: self.costs[self.place(row, event)] as i64,
            row_price: self.row_prices[row],
            event_price: self.column_prices[event],
        }
    }
}
