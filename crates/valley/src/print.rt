// The lines that are printed, put into a text. Fixed words are byte strings.
ghost use Rattle.std.specs.Prelude.{◌≡◌, get_or};
ghost use Rattle.text.specs.Puts.{Puts};
ghost use Rattle.valley.specs.Lines.{row_line, row_lines, total_line, lines as lines_lines};

use pairing::Pairs;
use text::Text;

fn put_row(text: &mut Text, hut: u16, column: u16)
    ensures { Puts text.old (row_line hut column) text.new }
{
    text.put_number(hut);
    text.put(b" ");
    text.put_number(column);
    text.put(b"\n");
}

// What a row has; past the end, 0.
fn of_row(numbers: &[u16], row: usize) -> u16
    ensures { result ≡ get_or numbers.now row 0 }
{
    numbers.get(row).copied().unwrap_or(0)
}

// The lines of the first n rows.
fn put_rows(text: &mut Text, huts: &[u16], n: usize, columns: &[u16])
    ensures { Puts text.old (row_lines huts.now columns.now n) text.new }
{
    for row in 0..n {
        put_row(text, of_row(huts, row), of_row(columns, row));
    }
}

fn put_total(text: &mut Text, total: i64)
    ensures { Puts text.old (total_line total) text.new }
{
    text.put(b"TOTAL ");
    text.put_number(total);
    text.put(b"\n");
}

// All lines, by the number of `Pairs`, the record that C gets: 0 paired, 6 no pairing.
pub(crate) fn put_lines(text: &mut Text, huts: &[u16], pairs: Pairs, columns: &[u16])
    ensures { Puts text.old (lines_lines huts.now pairs columns.now) text.new }
{
    if pairs.number == 0 {
        put_rows(text, huts, pairs.n, columns);
        put_total(text, pairs.total);
    } else if pairs.number == 6 {
        text.put(b"NO PAIRING\n");
    } else {
        text.put_refusal(pairs.number, pairs.place);
    }
}
