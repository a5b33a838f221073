// What the rules look for in mask and costs, and the rows that no cell allows. Whether there is anything to find is asked first, of all cells in a loop with no
// way out of it: the compiler then looks at many cells at once.
ghost use Rattle.std.specs.Prelude.{◌≡◌, ◌&&◌, ◌*◌, ◌<◌, eqb, length};
ghost use Rattle.lines.specs.First.{first, any, found};
ghost use Rattle.steps.specs.Refusal.{out_of_range, bad_mask, bad_cost, dead_row};

// ---- the mask

fn has_bad_mask(mask: &[u8]) -> bool
    ensures { result ≡ any (bad_mask mask.now) (length mask.now) }
{
    let mut bad = false;
    for byte in mask {
        bad |= 1 < *byte;
    }
    bad
}

// The lowest cell whose mask byte is above 1.
pub(crate) fn find_bad_mask(mask: &[u8]) -> Option<usize>
    ensures { result ≡ found (length mask.now) (first (bad_mask mask.now) (length mask.now)) }
{
    if !has_bad_mask(mask) {
        return None;
    }
    for (place, byte) in mask.iter().enumerate() {
        if 1 < *byte {
            return Some(place);
        }
    }
    None
}

// ---- the costs

fn is_out_of_range(cost: i32) -> bool
    ensures { result ≡ out_of_range cost }
{
    cost < -1_000_000_000 || 1_000_000_000 < cost
}

// A forbidden cell's cost is not looked at.
fn is_bad_cost(byte: u8, cost: i32) -> bool
    ensures { result ≡ (eqb byte 1 && out_of_range cost) }
{
    byte == 1 && is_out_of_range(cost)
}

fn has_bad_cost(costs: &[i32], mask: &[u8]) -> bool
    requires { length costs.now ≡ length mask.now }
    ensures { result ≡ any (bad_cost costs.now mask.now) (length mask.now) }
{
    let mut bad = false;
    for place in 0..mask.len() {
        bad |= is_bad_cost(mask[place], costs[place]);
    }
    bad
}

// The lowest allowed cell whose cost is out of range.
pub(crate) fn find_bad_cost(costs: &[i32], mask: &[u8]) -> Option<usize>
    requires { length costs.now ≡ length mask.now }
    ensures { result ≡ found (length mask.now) (first (bad_cost costs.now mask.now) (length mask.now)) }
{
    if !has_bad_cost(costs, mask) {
        return None;
    }
    for place in 0..mask.len() {
        if is_bad_cost(mask[place], costs[place]) {
            return Some(place);
        }
    }
    None
}

// ---- the rows

fn is_dead_row(n: usize, mask: &[u8], row: usize) -> bool
    requires { (length mask.now ≡ n * n) × (row < n) }
    ensures { result ≡ dead_row n mask.now row }
{
    let start = row * n;
    for byte in &mask[start..start + n] {
        if *byte == 1 {
            return false;
        }
    }
    true
}

// The first row without an allowed cell.
pub(crate) fn find_dead_row(n: usize, mask: &[u8]) -> Option<usize>
    requires { length mask.now ≡ n * n }
    ensures { result ≡ found n (first (dead_row n mask.now) n) }
{
    for row in 0..n {
        if is_dead_row(n, mask, row) {
            return Some(row);
        }
    }
    None
}
