// What the records of an accepted file say of each line, put into lent room, all lines in one judgement of the file.
#![tactic(auto)]

ghost use Rattle.std.specs.Prelude.{◌≡◌, cond, ◌+◌, ltb, get_or, length};
ghost use Rattle.lines.specs.Square.{each};
ghost use Rattle.judgement.specs.Says.{hut_of, row_area, row_clock, column_area, column_clock};
ghost use Rattle.said.specs.Said.{said};
ghost use Rattle.said.specs.Asks.{Readable};

use judgement::numbers::Number;
use judgement::scan::Scan;

// The number so far behind each offset, as far as the room goes.
fn put<T: Number>(file: &[u8], offsets: &[usize], shift: usize, out: &mut [T])
    requires { Readable file.now (shift + T.size) offsets.now }
    ensures { out.new ≡ each (λ i x. cond (ltb i (length offsets.now)) (T.stands_at file.now (get_or offsets.now i 0 + shift)) x) out.old }
{
    for (line, number) in out.iter_mut().enumerate() {
        if let Some(&offset) = offsets.get(line) {
            *number = T::read(file, offset + shift);
        }
    }
}

// The hut of every row, as far as the room goes; what is behind them is not touched.
pub fn huts_of(file: &[u8], huts: &mut [u16])
    ensures { huts.new ≡ said hut_of file.now huts.old }
{
    let mut scan = Scan::start();
    if let Ok(()) = judgement::judge_file(file, &mut scan) {
        put(file, scan.fragments.as_slice(), 1, huts);
    }
}

// The area and the clock of every row. What is put from where is all that differs from the events: a function over the shifts would say no more.
pub fn rows_of(file: &[u8], areas: &mut [u16], clocks: &mut [u32])
    ensures { (areas.new ≡ said row_area file.now areas.old)
        × (clocks.new ≡ said row_clock file.now clocks.old) }
{
    let mut scan = Scan::start();
    if let Ok(()) = judgement::judge_file(file, &mut scan) {
        put(file, scan.fragments.as_slice(), 3, areas);
        put(file, scan.fragments.as_slice(), 5, clocks);
    }
}

// The area and the clock of every event.
pub fn events_of(file: &[u8], areas: &mut [u16], clocks: &mut [u32])
    ensures { (areas.new ≡ said column_area file.now areas.old)
        × (clocks.new ≡ said column_clock file.now clocks.old) }
{
    let mut scan = Scan::start();
    if let Ok(()) = judgement::judge_file(file, &mut scan) {
        put(file, scan.events.as_slice(), 1, areas);
        put(file, scan.events.as_slice(), 3, clocks);
    }
}
