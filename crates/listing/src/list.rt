// The pairing: each pair with its prices, their sums and the total, so that each line adds up by hand.
ghost use Rattle.std.specs.Prelude.{◌<◌};
ghost use Rattle.text.specs.Puts.{Puts};
ghost use Rattle.listing.specs.Listed.{Listed};
ghost use Rattle.listing.specs.List.{head, pair_of, pair_lines, event_price_lines, total_line, pairing_lines};

use entries::{Prices, Solved};
use text::Text;

// The title, how large the case is, and how to read a price below 0.
pub fn put_head(text: &mut Text, solved: &Solved)
    ensures { Puts text.old (head solved.now.n solved.now.window) text.new }
{
    text.put(b"PRICE LIST\n");
    entries::put_size(text, solved.n, solved.window);
    text.put(b"; differences and prices in ms.\n");
    text.put(b"A price may be negative; only sums of prices count.\n\n");
}

// The line of a row of the pairing.
fn put_pair_of(text: &mut Text, solved: &Solved, row: usize)
    requires { Listed solved.now.n solved.now.columns × (row < solved.now.n) }
    ensures { Puts text.old (pair_of solved.now.huts solved.now.n solved.now.costs solved.now.columns
        solved.now.row_prices solved.now.column_prices row) text.new }
{
    let event = solved.columns[row] as usize;
    entries::put_pair(
        text,
        row,
        solved.huts[row],
        event,
        solved.prices(row, event),
    );
}

// The pairs.
fn put_pairs(text: &mut Text, solved: &Solved)
    requires { Listed solved.now.n solved.now.columns }
    ensures { Puts text.old (pair_lines solved.now.huts solved.now.n solved.now.costs solved.now.columns
        solved.now.row_prices solved.now.column_prices) text.new }
{
    text.put(b"  row    hut  event   difference =     row price +   event price\n");
    for row in 0..solved.n {
        put_pair_of(text, solved, row);
    }
}

// The price of every event, in their order, and their sum.
fn put_event_prices(text: &mut Text, solved: &Solved, sum: i64)
    ensures { Puts text.old (event_price_lines solved.now.n solved.now.column_prices sum) text.new }
{
    text.put(b"\nevent     event price\n");
    for event in 0..solved.n {
        entries::put_price(text, event, solved.column_prices[event]);
    }
    entries::put_price_sum(text, sum);
}

fn put_total(text: &mut Text, total: i64)
    ensures { Puts text.old (total_line total) text.new }
{
    text.put(b"\nTOTAL ");
    text.put_number(total);
    text.put(b"\n");
}

// The pairing: its pairs with their prices, the sums of the prices, the price of every event, and the total.
pub fn put_pairing(text: &mut Text, solved: &Solved, sums: Prices)
    requires { Listed solved.now.n solved.now.columns }
    ensures { Puts text.old (pairing_lines solved.now.huts solved.now.n sums.difference sums.row_price sums.event_price
        solved.now.costs solved.now.columns solved.now.row_prices solved.now.column_prices) text.new }
{
    put_pairs(text, solved);
    entries::put_sums(text, sums);
    put_event_prices(text, solved, sums.event_price);
    put_total(text, sums.difference);
}
