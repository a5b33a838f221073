// Lines about a row or an event.
ghost use Rattle.text.specs.Puts.{Puts};
ghost use Rattle.entries.specs.Lines.{prices as prices_words, pair_line, sums_line, price_line, price_sum_line, allowed_line, hut_line};

use text::Text;

// A difference and the prices that it is split into, of one pair or summed over all.
#[derive(Clone, Copy)]
pub struct Prices {
    pub difference: i64,
    pub row_price: i64,
    pub event_price: i64,
}

// As `300 = 300 + 0`.
fn put_prices(text: &mut Text, prices: Prices)
    ensures { Puts text.old (prices_words prices.difference prices.row_price prices.event_price) text.new }
{
    text.put_right(13, prices.difference);
    text.put(b" = ");
    text.put_right(13, prices.row_price);
    text.put(b" + ");
    text.put_right(13, prices.event_price);
}

// A pair of the pairing.
pub fn put_pair(text: &mut Text, row: usize, hut: u16, event: usize, prices: Prices)
    ensures { Puts text.old (pair_line row hut event prices.difference prices.row_price prices.event_price) text.new }
{
    text.put_right(5, row);
    text.put_right(7, hut);
    text.put_right(7, event);
    put_prices(text, prices);
    text.put(b"\n");
}

pub fn put_sums(text: &mut Text, sums: Prices)
    ensures { Puts text.old (sums_line sums.difference sums.row_price sums.event_price) text.new }
{
    text.put(b"  sum              ");
    put_prices(text, sums);
    text.put(b"\n");
}

pub fn put_price(text: &mut Text, event: usize, price: i64)
    ensures { Puts text.old (price_line event price) text.new }
{
    text.put_right(5, event);
    text.put_right(16, price);
    text.put(b"\n");
}

pub fn put_price_sum(text: &mut Text, sum: i64)
    ensures { Puts text.old (price_sum_line sum) text.new }
{
    text.put(b"  sum");
    text.put_right(16, sum);
    text.put(b"\n");
}

// An allowed pair, with what is left of its difference.
pub fn put_allowed(text: &mut Text, row: usize, event: usize, prices: Prices, spare: i64)
    ensures { Puts text.old (allowed_line row event prices.difference prices.row_price prices.event_price spare) text.new }
{
    text.put_right(5, row);
    text.put_right(7, event);
    put_prices(text, prices);
    text.put(b" + ");
    text.put_right(13, spare);
    text.put(b"\n");
}

pub fn put_hut(text: &mut Text, row: usize, hut: u16)
    ensures { Puts text.old (hut_line row hut) text.new }
{
    text.put_right(5, row);
    text.put_right(7, hut);
    text.put(b"\n");
}
