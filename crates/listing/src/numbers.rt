// Sums of prices.
ghost use Rattle.std.specs.Prelude.{◌≤◌};
ghost use Rattle.listing.specs.Listed.{SumOf};

// The sum of the first n values, where 64 bits hold it, as they hold every sum of these lists.
pub fn sum(n: usize, values: &[i64; 64]) -> i64
    requires { n ≤ 64 }
    ensures { SumOf n values.now result }
{
    let mut total: i64 = 0;
    for i in 0..n {
        total = total.saturating_add(values[i]);
    }
    total
}
