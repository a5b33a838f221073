// The numbers that a stored call says: list after list, each in a room of its own.
ghost use Rattle.std.specs.Prelude.{◌≡◌, true, ◌+◌, ◌<◌, ◌≤◌, ℕ, pos, length, get_or, set};
ghost use Rattle.calls.specs.Numbers.{cost_of as numbers_cost_of, byte_of as numbers_byte_of, SaysAll};

// The room of a list with a number for each cell of 65 rows, and of one with a number for each line.
pub const CELLS: usize = 4225;

pub const LINES: usize = 65;

// Where each list begins, as `Kept` says it.
pub const COSTS: usize = 0;

pub const MASK: usize = 4225;

pub const WORKING: usize = 8450;

pub const MARKS: usize = 12_675;

pub const COLUMNS: usize = 16_900;

pub const ROW_PRICES: usize = 16_965;

pub const COLUMN_PRICES: usize = 17_030;

pub const ANSWER: usize = 17_095;

// All of them.
pub const ALL: usize = 17_160;

pub type Numbers = [i64; ALL];

// Says number i behind `start`; nothing outside the rooms, where no list has a number.
pub fn put(said: &mut Numbers, start: usize, i: usize, number: i64)
    ensures { start + i < 17160 → said.new ≡ set said.old (start + i) number }
{
    let at = start.saturating_add(i);
    if at < ALL {
        said[at] = number;
    }
}

// Do the numbers that are said from `start` on begin with these?
pub fn says<T: Copy + Into<i64>>(said: &Numbers, start: usize, numbers: &[T]) -> bool
    ensures { result ≡ true → SaysAll T.converts said.now start numbers.now }
{
    for (i, &number) in numbers.iter().enumerate() {
        if said.get(start.saturating_add(i)).copied() != Some(number.into()) {
            return false;
        }
    }
    true
}

// A number as a cost; 0 where it is none.
#[tactic(auto, unfolding(crate::specs::Numbers::cost_of))]
fn cost_of(number: i64) -> i32
    ensures { result ≡ numbers_cost_of number }
{
    i32::try_from(number).unwrap_or(0)
}

// A number as a mask byte; 0 where it is none.
#[tactic(auto, unfolding(crate::specs::Numbers::byte_of))]
fn byte_of(number: i64) -> u8
    ensures { result ≡ numbers_byte_of number }
{
    u8::try_from(number).unwrap_or(0)
}

// The costs that are lent, which are said from the front on: no more are made than are lent.
pub(crate) fn costs_of(said: &Numbers, count: usize) -> [i32; CELLS]
    requires { count ≤ 4225 }
    ensures long { length result ≡ 4225 }
    ensures lent { (i : ℕ) → i < count → get_or result i (pos 0) ≡ numbers_cost_of (get_or said.now i (pos 0)) }
{
    let mut costs = [0i32; CELLS];
    for i in 0..count {
        costs[i] = cost_of(said[i]);
    }
    costs
}

// The mask bytes that are lent.
pub(crate) fn mask_of(said: &Numbers, count: usize) -> [u8; CELLS]
    requires { count ≤ 4225 }
    ensures long { length result ≡ 4225 }
    ensures lent { (i : ℕ) → i < count → get_or result i 0 ≡ numbers_byte_of (get_or said.now (4225 + i) (pos 0)) }
{
    let mut mask = [0u8; CELLS];
    for i in 0..count {
        mask[i] = byte_of(said[MASK + i]);
    }
    mask
}
