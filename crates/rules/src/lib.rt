// The judgement of what is lent: rules 1 to 5 in their order, then the test of the rows; for any largest n, and whatever is lent beside costs and mask.
#![tactic(auto)]

ghost use Rattle.std.specs.Prelude.{◌≡◌, not, ◌&&◌, ◌*◌, ◌≤◌, eqb, ltb, length};
ghost use Rattle.steps.specs.Rules.{rule, cell_rule};
ghost use Rattle.steps.specs.Refusal.{bad_mask, bad_cost, has_room, judgement};
ghost use Rattle.rules.specs.View.{view_rule, view_verdict, alone};

mod refusal;
mod room;
mod search;

pub use refusal::{Refusal, Stop};
pub use room::{Room, has_room};
use search::{find_bad_cost, find_bad_mask, find_dead_row};

// ---- the rules, one function for each

fn check_rows(n: usize) -> Result<(), Refusal>
    ensures { view_rule result ≡ alone (rule 1 (eqb n 0)) }
{
    if n == 0 {
        return Err(Refusal::NoRows);
    }
    Ok(())
}

fn check_limit(limit: u16, n: usize) -> Result<(), Refusal>
    ensures { view_rule result ≡ alone (rule 2 (ltb limit n)) }
{
    if (limit as usize) < n {
        return Err(Refusal::TooManyRows);
    }
    Ok(())
}

fn check_lengths(n: usize, costs: usize, mask: usize, others: bool) -> Result<(), Refusal>
    requires { n ≤ 65535 }
    ensures { view_rule result ≡ alone (rule 3 (not (eqb costs (n * n) && eqb mask (n * n) && others))) }
{
    let cells = n * n;
    if costs == cells && mask == cells && others {
        return Ok(());
    }
    Err(Refusal::WrongLength)
}

fn check_mask(mask: &[u8]) -> Result<(), Refusal>
    ensures { view_rule result ≡ alone (cell_rule 4 (bad_mask mask.now) (length mask.now)) }
{
    match find_bad_mask(mask) {
        Some(cell) => Err(Refusal::BadMask(cell)),
        None => Ok(()),
    }
}

fn check_costs(costs: &[i32], mask: &[u8]) -> Result<(), Refusal>
    requires { length costs.now ≡ length mask.now }
    ensures { view_rule result ≡ alone (cell_rule 5 (bad_cost costs.now mask.now) (length mask.now)) }
{
    match find_bad_cost(costs, mask) {
        Some(cell) => Err(Refusal::BadCost(cell)),
        None => Ok(()),
    }
}

// ---- the verdict

// The first rule that applies; `others` says whether every buffer beside costs and mask has its length, and matters only where n is not above the limit.
// Size, costs and mask come one by one, as whether they are a square is judged here.
pub fn judge(limit: u16, n: usize, costs: &[i32], mask: &[u8], others: bool) -> Result<(), Stop>
    ensures { view_verdict result ≡ judgement limit n costs.now mask.now others }
{
    check_rows(n)?;
    check_limit(limit, n)?;
    check_lengths(n, costs.len(), mask.len(), others)?;
    check_mask(mask)?;
    check_costs(costs, mask)?;
    match find_dead_row(n, mask) {
        None => Ok(()),
        Some(row) => Err(Stop::DeadRow(row)),
    }
}

// The room for n rows; none where n is above the limit.
fn has_room_for(limit: u16, n: usize, room: Room) -> bool
    ensures { result ≡ (not (ltb limit n) && has_room (n * n) n room.working room.marks room.columns room.row_prices room.column_prices) }
{
    n <= limit as usize && has_room(n * n, n, room)
}

// The verdict of a solver's call, by the lengths of what it may write.
pub fn judge_call(limit: u16, n: usize, costs: &[i32], mask: &[u8], room: Room) -> Result<(), Stop>
    ensures { view_verdict result ≡ judgement limit n costs.now mask.now (has_room (n * n) n room.working room.marks room.columns room.row_prices room.column_prices) }
{
    let others = has_room_for(limit, n, room);
    judge(limit, n, costs, mask, others)
}
