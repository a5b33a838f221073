// Words and numbers, put one after another.
ghost use Rattle.text.specs.Puts.{Puts};
ghost use Rattle.entries.specs.Lines.{plural, counted, counts, size};

use text::Text;

// An `s` behind more things than one, or none.
fn put_plural(text: &mut Text, count: usize)
    ensures { Puts text.old (plural count) text.new }
{
    if count != 1 {
        text.put(b"s");
    }
}

// As `1 event` and `2 events`.
pub fn put_counted(text: &mut Text, count: usize, thing: &[u8])
    ensures { Puts text.old (counted count thing.now) text.new }
{
    text.put_number(count);
    text.put(b" ");
    text.put(thing);
    put_plural(text, count);
}

// As `3 fragments, 3 events`.
fn put_counts(text: &mut Text, n: usize)
    ensures { Puts text.old (counts n) text.new }
{
    put_counted(text, n, b"fragment");
    text.put(b", ");
    put_counted(text, n, b"event");
}

// How large a case is, and its window.
pub fn put_size(text: &mut Text, n: usize, window: u32)
    ensures { Puts text.old (size n window) text.new }
{
    put_counts(text, n);
    text.put(b", clocks at most ");
    text.put_number(window);
    text.put(b" ms apart");
}
