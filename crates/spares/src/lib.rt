// Why no pairing costs less, put into a text: the prices' sum as a bound, and every allowed pair with what it has to spare.
#![tactic(auto)]

ghost use Rattle.std.specs.Prelude.{◌*◌, ◌<◌};
ghost use Rattle.text.specs.Puts.{Puts};
ghost use Rattle.entries.specs.Places.{InList};
ghost use Rattle.spares.specs.Spares.{allowed_of, sum_words, reason, cell_line, every_pair, least_lines};

use entries::{Prices, Solved};
use text::Text;

// As `400 + 400 = 800`.
fn put_sum(text: &mut Text, sums: Prices)
    ensures { Puts text.old (sum_words sums.difference sums.row_price sums.event_price) text.new }
{
    text.put_number(sums.row_price);
    text.put(b" + ");
    text.put_number(sums.event_price);
    text.put(b" = ");
    text.put_number(sums.difference);
}

// That no pairing costs less.
fn put_reason(text: &mut Text, sums: Prices)
    ensures { Puts text.old (reason sums.difference sums.row_price sums.event_price) text.new }
{
    text.put(
        b"\nWhy no pairing costs less: the list below has every allowed pair, and no spare is negative.\n",
    );
    text.put(
        b"A pairing takes every row once and every event once, so it costs at least all prices together,\n",
    );
    put_sum(text, sums);
    text.put(b". The pairing above costs exactly that.\n\n");
}

// The line of a row and an event that may be paired.
fn put_allowed_of(text: &mut Text, solved: &Solved, row: usize, event: usize)
    requires { InList solved.now.n row event }
    ensures { Puts text.old (allowed_of solved.now.n solved.now.costs solved.now.working
        solved.now.row_prices solved.now.column_prices row event) text.new }
{
    let prices = solved.prices(row, event);
    entries::put_allowed(text, row, event, prices, solved.spare(row, event));
}

// The line of a cell, where its pair is allowed.
#[tactic(auto, using(text::proofs::PutLaws::puts_none), unfolding(crate::specs::Spares::cell_line))]
fn put_cell(text: &mut Text, solved: &Solved, place: usize)
    requires { place < solved.now.n * solved.now.n }
    ensures { Puts text.old (cell_line solved.now.n solved.now.costs solved.now.mask solved.now.working
        solved.now.row_prices solved.now.column_prices place) text.new }
{
    if solved.mask[place] == 1 {
        put_allowed_of(text, solved, place / solved.n, place % solved.n);
    }
}

// Every allowed pair, row by row.
fn put_every_pair(text: &mut Text, solved: &Solved)
    ensures { Puts text.old (every_pair solved.now.n solved.now.costs solved.now.mask solved.now.working
        solved.now.row_prices solved.now.column_prices) text.new }
{
    text.put(b"  row  event   difference =     row price +   event price +         spare\n");
    for place in 0..solved.n * solved.n {
        put_cell(text, solved, place);
    }
}

// That no pairing costs less, and every allowed pair; a short list has neither.
pub fn put_least(text: &mut Text, short: bool, solved: &Solved, sums: Prices)
    ensures { Puts text.old (least_lines short solved.now.n sums.difference sums.row_price sums.event_price
        solved.now.costs solved.now.mask solved.now.working solved.now.row_prices solved.now.column_prices) text.new }
{
    if short {
        return;
    }
    put_reason(text, sums);
    put_every_pair(text, solved);
}
