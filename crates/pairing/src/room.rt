// The room that a program lends, on its stack.
ghost use Rattle.std.specs.Prelude.{◌≡◌};
ghost use Rattle.pairing.specs.Pair.{fresh, PairPromise};
ghost use Rattle.pairing.specs.Room.{lent};

use crate::{Pairs, pair_case};

#[derive(Drop)]
pub struct Room {
    pub costs: [i32; 4096],
    pub mask: [u8; 4096],
    pub working: [i64; 4096],
    pub marks: [u8; 4096],
    pub columns: [u16; 64],
    pub row_prices: [i64; 64],
    pub column_prices: [i64; 64],
}

impl Room {
    pub fn new() -> Room
        ensures { lent result ≡ fresh }
    {
        Room {
            costs: [0; 4096],
            mask: [0; 4096],
            working: [0; 4096],
            marks: [0; 4096],
            columns: [0; 64],
            row_prices: [0; 64],
            column_prices: [0; 64],
        }
    }

    // Pairs the fragments of a file with its events.
    pub fn pair(&mut self, file: &[u8]) -> Pairs
        ensures { PairPromise file.now (lent self.old) result (lent self.new) }
    {
        pair_case(
            file,
            &mut self.costs,
            &mut self.mask,
            &mut self.working,
            &mut self.marks,
            &mut self.columns,
            &mut self.row_prices,
            &mut self.column_prices,
        )
    }
}
