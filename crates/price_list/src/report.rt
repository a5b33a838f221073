// A file paired on room of the stack, and what is printed of it: the price list, the block, or the refusal.
ghost use Rattle.std.specs.Prelude.{◌≡◌, replicate};
ghost use Rattle.steps.specs.Lent.{buffers};
ghost use Rattle.pairing.specs.Pair.{loan, fresh, PairPromise};
ghost use Rattle.price_list.specs.Report.{huts as file_huts, Reported};

use crate::print;
use entries::{Prices, Solved};
use pairing::Pairs;
use text::Text;

// Pairs a file within the solved case and a square of marks beside it. `pairing::Room` would have the squares copied out of it, and the stack holds them once.
fn pair(file: &[u8], solved: &mut Solved, marks: &mut [u8; 4096]) -> Pairs
    requires room { loan solved.old.costs solved.old.mask (buffers solved.old.working marks.old solved.old.columns
        solved.old.row_prices solved.old.column_prices) ≡ fresh }
    requires huts { solved.old.huts ≡ replicate 64 0 }
    ensures promise { PairPromise file.now fresh result (loan solved.new.costs solved.new.mask
        (buffers solved.new.working marks.new solved.new.columns solved.new.row_prices solved.new.column_prices)) }
    ensures huts { solved.new.huts ≡ file_huts file.now }
    ensures size { (solved.new.n ≡ result.n) × (solved.new.window ≡ result.window) }
{
    let pairs = pairing::pair_case(
        file,
        &mut solved.costs,
        &mut solved.mask,
        &mut solved.working,
        marks,
        &mut solved.columns,
        &mut solved.row_prices,
        &mut solved.column_prices,
    );
    storm_case::huts_of(file, &mut solved.huts);
    solved.n = pairs.n;
    solved.window = pairs.window;
    pairs
}

// `short` is a bool, as `Reported` and `text_of` say it.
pub(crate) fn report(short: bool, file: &[u8], out: &mut [u8]) -> usize
    ensures { Reported short file.now out.old result out.new }
{
    let mut solved = Solved {
        n: 0,
        window: 0,
        huts: [0; 64],
        costs: [0; 4096],
        mask: [0; 4096],
        working: [0; 4096],
        columns: [0; 64],
        row_prices: [0; 64],
        column_prices: [0; 64],
    };
    let mut marks = [0u8; 4096];
    let pairs = pair(file, &mut solved, &mut marks);
    let mut text = Text::begin(out);
    // By the number of `Pairs`, the record that C gets: 0 paired, 6 no pairing.
    if pairs.number == 0 {
        let sums = Prices {
            difference: pairs.total,
            row_price: listing::sum(pairs.n, &solved.row_prices),
            event_price: listing::sum(pairs.n, &solved.column_prices),
        };
        print::put_list(&mut text, short, file, &solved, sums);
        return text.used;
    }
    if pairs.number == 6 {
        print::put_block(
            &mut text,
            file,
            &solved,
            pairs.block_rows,
            pairs.block_columns,
        );
        return text.used;
    }
    text.put_refusal(pairs.number, pairs.place);
    text.used
}
