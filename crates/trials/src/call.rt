// One call of a trial, read from the text: what is lent, and what must come out.
ghost use Rattle.std.specs.Prelude.{IfOk};
ghost use Rattle.calls.specs.Kept.{Fits};

use crate::words::{Misread, Words};
use calls::{
    ALL, ANSWER, Before, CELLS, COLUMN_PRICES, COLUMNS, COSTS, Call, LINES, Lengths, MARKS, MASK,
    Numbers, ROW_PRICES, WORKING,
};

const BEFORE: Before = Before {
    working: 77,
    mark: 9,
    column: 99,
    price: -7,
};

// Numbers of a call under one name: where they begin, how many they are, and what all of them are where they are not named.
#[derive(Clone, Copy)]
struct List {
    name: &'static [u8],
    start: usize,
    count: usize,
    unnamed: i64,
}

impl List {
    const fn new(name: &'static [u8], start: usize, count: usize, unnamed: i64) -> List {
        List {
            name,
            start,
            count,
            unnamed,
        }
    }

    // A field of the answer.
    const fn field(name: &'static [u8], place: usize) -> List {
        List::new(name, place, 1, 0)
    }

    fn read(&self, words: &mut Words<'_>, said: &mut Numbers) -> Result<(), Misread> {
        let all = if !words.passes(self.name) {
            Some(self.unnamed)
        } else if words.passes(b"all") {
            Some(words.number()?)
        } else {
            None
        };
        for i in 0..self.count {
            let number = match all {
                Some(number) => number,
                None => words.number()?,
            };
            calls::put(said, self.start, i, number);
        }
        Ok(())
    }
}

// A call's numbers, in the order in which they are named.
fn lists(lengths: Lengths) -> [List; 15] {
    [
        List::new(b"costs", COSTS, lengths.costs, 7),
        List::new(b"mask", MASK, lengths.mask, 1),
        List::field(b"answer", ANSWER),
        List::field(b"place", ANSWER + 1),
        List::field(b"total", ANSWER + 5),
        List::field(b"adjustments", ANSWER + 2),
        List::field(b"primes", ANSWER + 3),
        List::field(b"augmentations", ANSWER + 4),
        List::field(b"block_rows", ANSWER + 6),
        List::field(b"block_columns", ANSWER + 7),
        List::new(b"working", WORKING, lengths.working, BEFORE.working),
        List::new(b"marks", MARKS, lengths.marks, i64::from(BEFORE.mark)),
        List::new(
            b"columns",
            COLUMNS,
            lengths.columns,
            i64::from(BEFORE.column),
        ),
        List::new(b"row_prices", ROW_PRICES, lengths.row_prices, BEFORE.price),
        List::new(
            b"column_prices",
            COLUMN_PRICES,
            lengths.column_prices,
            BEFORE.price,
        ),
    ]
}

fn read_lengths(words: &mut Words<'_>) -> Result<Lengths, Misread>
    ensures { IfOk result Fits }
{
    words.expect(b"lent")?;
    Ok(Lengths {
        costs: words.count(CELLS)?,
        mask: words.count(CELLS)?,
        working: words.count(CELLS)?,
        marks: words.count(CELLS)?,
        columns: words.count(LINES)?,
        row_prices: words.count(LINES)?,
        column_prices: words.count(LINES)?,
    })
}

// The numbers of the next call are read, and it is made. They have a function of their own, whose room is cleared once.
fn is_next_kept(words: &mut Words<'_>, call: Call) -> Result<bool, Misread>
    requires { Fits call.lengths }
{
    let mut said = [0i64; ALL];
    for list in lists(call.lengths) {
        list.read(words, &mut said)?;
    }
    Ok(calls::is_kept(call, &said))
}

// Is the next call kept?
pub(crate) fn call(words: &mut Words<'_>) -> Result<bool, Misread> {
    let lengths = read_lengths(words)?;
    words.expect(b"n")?;
    let n = words.count(usize::MAX)?;
    words.expect(b"budget")?;
    let budget = words.count(u32::MAX as usize)? as u32;
    let call = Call {
        n,
        budget,
        lengths,
        before: BEFORE,
        marks_said: true,
    };
    is_next_kept(words, call)
}
