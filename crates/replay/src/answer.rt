// A record of the file `answers`, as a call: its matrix is lent again to both solvers, and what the crate gave back must come out.
ghost use Rattle.std.specs.Prelude.{◌≤◌};

use crate::record::Record;
use calls::{
    ALL, ANSWER, Before, COLUMN_PRICES, COLUMNS, COSTS, Call, Lengths, MARKS, MASK, ROW_PRICES,
    WORKING,
};

// What the buffers hold before the call, and hold still where nothing is stored.
const JUNK: Before = Before {
    working: 6_148_914_691_236_517_205,
    mark: 85,
    column: 21_845,
    price: 6_148_914_691_236_517_205,
};

// The cells of n rows.
fn cells_of(n: usize) -> usize
    requires { n ≤ 64 }
    ensures { result ≤ 4096 }
{
    n * n
}

// The mask of n rows: column j is bit j % 8 of byte j / 8 of its row.
fn read_mask(record: &mut Record<'_>, n: usize, mask: &mut [i64]) -> Option<()> {
    if n == 0 {
        return Some(());
    }
    for row in mask.chunks_mut(n) {
        let bytes = record.take(n.div_ceil(8))?;
        for (column, allowed) in row.iter_mut().enumerate() {
            let byte = *bytes.get(column / 8)?;
            *allowed = i64::from((byte >> (column % 8)) & 1);
        }
    }
    Some(())
}

// The answer's number where all comes out as stored.
pub(crate) fn replay(record: &[u8]) -> Option<u8> {
    let mut record = Record::new(record);
    let n = usize::from(record.u8()?);
    let number = record.u8()?;
    let cost_width = record.u8()?;
    let value_width = record.u8()?;
    let budget = record.u32()?;
    if n > 64 || !matches!(number, 0 | 6 | 7) {
        return None;
    }
    let cells = cells_of(n);
    let mut said = [0i64; ALL];
    // The place is 0.
    said[ANSWER] = i64::from(number);
    for count in &mut said[ANSWER + 2..ANSWER + 5] {
        *count = i64::from(record.u32()?);
    }
    // Total and block.
    record.numbers(8, &mut said[ANSWER + 5..ANSWER + 8])?;
    read_mask(&mut record, n, &mut said[MASK..MASK + cells])?;
    record.numbers(cost_width, &mut said[COSTS..COSTS + cells])?;
    // Columns are stored at number 0 only, in a byte each.
    let columns = &mut said[COLUMNS..COLUMNS + n];
    columns.fill(i64::from(JUNK.column));
    record.numbers(u8::from(number == 0), columns)?;
    for (start, count) in [(ROW_PRICES, n), (COLUMN_PRICES, n), (WORKING, cells)] {
        let values = &mut said[start..start + count];
        values.fill(JUNK.working);
        record.numbers(value_width, values)?;
    }
    said[MARKS..MARKS + cells].fill(i64::from(JUNK.mark));
    let call = Call {
        n,
        budget,
        lengths: Lengths {
            costs: cells,
            mask: cells,
            working: cells,
            marks: cells,
            columns: n,
            row_prices: n,
            column_prices: n,
        },
        before: JUNK,
        marks_said: value_width == 0,
    };
    (record.is_empty() && calls::is_kept(call, &said)).then_some(number)
}
