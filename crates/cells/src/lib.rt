// The cells that an accepted file says: a pair is allowed if the areas are equal and the clocks at most the window apart; the difference is its cost.
// Only storm_case calls `fill`, so it may have a `requires`.
#![tactic(auto)]

ghost use Rattle.std.specs.Prelude.{◌≡◌, true, cond, not, ◌&&◌, ◌≤◌, ◌<◌, eqb, ltb, pos};
ghost use Rattle.lines.specs.Square.{square, each_row};
ghost use Rattle.cells.specs.Cells.{pair_cost, mask_byte};
ghost use Rattle.judgement.specs.View.{view_scan};
ghost use Rattle.cells.specs.Asks.{Fillable};

use judgement::numbers::Number;
use judgement::scan::Scan;

// Equal areas, and clocks at most the window apart.
fn may_pair(window: u32, row: u16, column: u16, error: u32) -> bool
    ensures { result ≡ (eqb row column && not (ltb window error)) }
{
    row == column && error <= window
}

// A forbidden cell gets cost 0: C reads from the mask alone that it is forbidden.
fn cost_of(allowed: bool, error: u32) -> i32
    requires { allowed ≡ true → error ≤ 1_000_000_000 }
    ensures { result ≡ cond allowed (pos error) (pos 0) }
{
    if allowed { error as i32 } else { 0 }
}

// One row of cells: the fragment against each event.
fn fill_row(file: &[u8], scan: &Scan, row: usize, costs: &mut [i32], mask: &mut [u8])
    requires { Fillable file.now (view_scan scan.now) costs.old mask.old × (row < scan.now.n) }
    ensures { (costs.new ≡ each_row scan.now.n row (λ j w. pair_cost file.now (view_scan scan.now) row j) costs.old)
        × (mask.new ≡ each_row scan.now.n row (λ j w. mask_byte file.now (view_scan scan.now) row j) mask.old) }
{
    let fragment = scan.fragments.as_slice()[row];
    let area = u16::read(file, fragment + 3);
    let clock = u32::read(file, fragment + 5);
    let start = row * scan.n;
    for (column, &event) in scan.events.as_slice().iter().enumerate() {
        let error = clock.abs_diff(u32::read(file, event + 3));
        let allowed = may_pair(scan.window, area, u16::read(file, event + 1), error);
        costs[start + column] = cost_of(allowed, error);
        mask[start + column] = u8::from(allowed);
    }
}

// Every cell, row by row.
pub fn fill(file: &[u8], scan: &Scan, costs: &mut [i32], mask: &mut [u8])
    requires { Fillable file.now (view_scan scan.now) costs.old mask.old }
    ensures { (costs.new ≡ square (pair_cost file.now (view_scan scan.now)) scan.now.n)
        × (mask.new ≡ square (mask_byte file.now (view_scan scan.now)) scan.now.n) }
{
    for row in 0..scan.n {
        fill_row(file, scan, row, costs, mask);
    }
}
