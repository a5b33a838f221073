// The case reader: the costs and mask that a case file says, the hut of a row, and what it says of each line.
#![tactic(auto)]

ghost use Rattle.std.specs.Prelude.{◌≡◌};
ghost use Rattle.storm_case.specs.Case.{has_cells, case_from, read, hut as case_hut};

use judgement::numbers::Number;
pub use judgement::refusal::{Refusal, Rule};
use judgement::scan::Scan;
pub use records::{Missing, body, find};
pub use said::{events_of, huts_of, rows_of};

// The size and the window of an accepted file.
#[derive(Clone, Copy, PartialEq, Eq, Debug)]
pub struct Size {
    pub n: usize,
    pub window: u32,
}

// The reader's answer as one record, which C gets (`serbihun_read_case`) and of which the definition `read` speaks: 0 or the number of a refusal with
// its place, the size and the window.
#[repr(C)]
#[derive(Drop)]
pub struct Case {
    pub number: u32,
    pub place: usize,
    pub n: usize,
    pub window: u32,
}

impl From<Result<Size, Refusal>> for Case {
    ghost from_gives = { λ answer case. case ≡ case_from answer };

    fn from(answer: Result<Size, Refusal>) -> Case {
        match answer {
            Ok(size) => Case {
                number: 0,
                place: 0,
                n: size.n,
                window: size.window,
            },
            Err(refusal) => Case {
                number: refusal.rule.number(),
                place: refusal.place,
                n: 0,
                window: 0,
            },
        }
    }
}

// Exactly 4,096 costs and 4,096 mask bytes?
#[tactic(auto, unfolding(crate::specs::Case::has_cells))]
pub fn has_cells(costs: usize, mask: usize) -> bool
    ensures { result ≡ has_cells costs mask }
{
    costs == 4096 && mask == 4096
}

// Reads a file into room for 4,096 costs and 4,096 mask bytes, two buffers as C lends them (`serbihun_read_case`).
pub fn read_case(file: &[u8], costs: &mut [i32], mask: &mut [u8]) -> Result<Size, Refusal>
    ensures { (case_from result, costs.new, mask.new) ≡ read file.now costs.old mask.old }
{
    if !has_cells(costs.len(), mask.len()) {
        return Err(Rule::Room.at(0));
    }
    let mut scan = Scan::start();
    judgement::judge_file(file, &mut scan)?;
    let cells = scan.n * scan.n;
    cells::fill(file, &scan, &mut costs[..cells], &mut mask[..cells]);
    Ok(Size {
        n: scan.n,
        window: scan.window,
    })
}

// The hut of a row of the file; none where the row is not below n, or the file is refused.
pub fn hut_of(file: &[u8], row: usize) -> Option<u16>
    ensures { result ≡ case_hut file.now row }
{
    let mut scan = Scan::start();
    let Ok(()) = judgement::judge_file(file, &mut scan) else {
        return None;
    };
    let &fragment = scan.fragments.as_slice().get(row)?;
    Some(u16::read(file, fragment + 1))
}
