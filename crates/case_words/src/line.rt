// The line of a row and that of an event.
ghost use Rattle.text.specs.Puts.{Puts};
ghost use Rattle.case_words.specs.Case.{row_line, event_line};

use text::Text;

pub(crate) fn put_row(text: &mut Text, row: usize, hut: u16, area: u16, clock: u32)
    ensures { Puts text.old (row_line row hut area clock) text.new }
{
    text.put_right(5, row);
    text.put_right(7, hut);
    text.put_right(7, area);
    text.put_right(12, clock);
    text.put(b"\n");
}

// Its area and clock stand below those of the rows.
pub(crate) fn put_event(text: &mut Text, event: usize, area: u16, clock: u32)
    ensures { Puts text.old (event_line event area clock) text.new }
{
    text.put_right(5, event);
    text.put_right(14, area);
    text.put_right(12, clock);
    text.put(b"\n");
}
