// The matrix of a call, which the solvers are lent and only read: its costs, which of them are allowed, and the least of a row.
ghost use Rattle.std.specs.Prelude.{◌≡◌, ℤ};
ghost use Rattle.lines.specs.Bounds.{Within};
ghost use Rattle.steps.specs.Lent.{allows, cost_at};
ghost use Rattle.ground.specs.Prices.{InRow};
ghost use Rattle.ground.specs.Least.{least_from, value_or_zero};

use crate::prices::lesser;

// n rows of n costs, and a byte for each: 1 where the cell is allowed.
#[derive(Clone, Copy)]
pub struct Matrix<'a> {
    pub n: usize,
    pub costs: &'a [i32],
    pub mask: &'a [u8],
}

impl<'a> Matrix<'a> {
    // The least allowed cost of the row, at most 2^31 away from 0 as every `i32` is.
    pub fn min_of_row(self, row: usize) -> Option<i64>
        requires { InRow self.n self.costs.now self.mask.now row }
        ensures { let m = self.entry in (result ≡ least_from None (allows m.n m.mask.now row) (cost_at m.n m.costs.now row) m.n)
            × ((z : ℤ) → result ≡ Some z → Within 2147483648 z) }
    {
        let Matrix { n, costs, mask } = self;
        let start = row * n;
        let mut least = None;
        for column in 0..n {
            if mask[start + column] == 1 {
                least = lesser(least, i64::from(costs[start + column]));
            }
        }
        least
    }

    // The row's price; 0 for a row without an allowed cell.
    pub fn price_of_row(self, row: usize) -> i64
        requires { InRow self.n self.costs.now self.mask.now row }
        ensures { let m = self.entry in
            (result ≡ value_or_zero (least_from None (allows m.n m.mask.now row) (cost_at m.n m.costs.now row) m.n)) × Within 2147483648 result }
    {
        self.min_of_row(row).unwrap_or(0)
    }
}
