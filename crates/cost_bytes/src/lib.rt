// Costs as bytes, four little-endian bytes each: how many there are to read, and what they are.
#![tactic(auto)]

ghost use Rattle.std.specs.Prelude.{◌≡◌, ◌*◌, ◌≤◌, length, take};
ghost use Rattle.lines.specs.Square.{table};
ghost use Rattle.cost_bytes.specs.Bytes.{cost_of, readable};

// The first `cells` costs that the bytes are.
pub fn decode(cells: usize, bytes: &[u8], costs: &mut [i32])
    requires { (cells ≤ length costs.old) × (4 * cells ≤ length bytes.now) }
    ensures { take cells costs.new ≡ table (cost_of bytes.now) cells }
{
    for cell in 0..cells {
        let at = 4 * cell;
        costs[cell] = i32::from_le_bytes([bytes[at], bytes[at + 1], bytes[at + 2], bytes[at + 3]]);
    }
}

// How many costs to read: all where the bytes are exactly those of n rows, n at most 64; else none, as `readable` gives 0.
pub fn cells_to_read(n: usize, bytes: usize) -> usize
    ensures { result ≡ readable n bytes }
{
    if 64 < n {
        return 0;
    }
    let cells = n * n;
    if bytes != 4 * cells {
        return 0;
    }
    cells
}
