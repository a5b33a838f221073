// What is printed of a pairing, and where there is none.
ghost use Rattle.std.specs.Prelude.{◌≤◌};
ghost use Rattle.text.specs.Puts.{Puts};
ghost use Rattle.listing.specs.Listed.{Listed};
ghost use Rattle.price_list.specs.Report.{case_above, list_text, block_text};

use entries::{Prices, Solved};
use text::Text;

// The case above a list; a short list has it not.
fn put_case_above(text: &mut Text, short: bool, file: &[u8], n: usize)
    requires { n ≤ 64 }
    ensures { Puts text.old (case_above short file.now n) text.new }
{
    if short {
        return;
    }
    case_words::put_case(text, file, n);
    text.put(b"\n");
}

// The list, with the sums of the prices.
pub(crate) fn put_list(text: &mut Text, short: bool, file: &[u8], solved: &Solved, sums: Prices)
    requires { Listed solved.now.n solved.now.columns }
    ensures { Puts text.old (list_text short file.now solved.now.huts solved.now.n solved.now.window
        sums.difference sums.row_price sums.event_price solved.now.costs solved.now.mask solved.now.working
        solved.now.columns solved.now.row_prices solved.now.column_prices) text.new }
{
    listing::put_head(text, solved);
    put_case_above(text, short, file, solved.n);
    listing::put_pairing(text, solved, sums);
    spares::put_least(text, short, solved, sums);
}

// The case, what fits none, and the block, given by its rows and by its events.
pub(crate) fn put_block(text: &mut Text, file: &[u8], solved: &Solved, rows: u64, events: u64)
    ensures { Puts text.old (block_text file.now solved.now.huts solved.now.n solved.now.window rows events
        solved.now.mask) text.new }
{
    shortage::put_head(text, solved);
    case_words::put_case(text, file, solved.n);
    text.put(b"\n");
    case_words::put_unfit(text, solved);
    shortage::put_block(text, solved, rows, events);
}
