// The events of a set, or those outside it, one after another.
ghost use Rattle.std.specs.Prelude.{◌≡◌, ◌≤◌, ◌<◌};
ghost use Rattle.text.specs.Puts.{Puts};
ghost use Rattle.shortage.specs.Block.{named, event_word, event_words, event_count, event_names};

use text::Text;

// Of the first n events those that the set has, or else those that it has not.
#[derive(Clone, Copy)]
pub(crate) struct Events {
    pub(crate) n: usize,
    pub(crate) set: u64,
    pub(crate) inside: bool,
    ghost small: { n ≤ 64 },
}

impl Events {
    fn has(self, event: usize) -> bool
        requires { event < 64 }
        ensures { result ≡ named self.set self.inside event }
    {
        lines::has(self.set, event) == self.inside
    }
}

fn put_event_word(text: &mut Text, shown: bool, event: usize)
    ensures { Puts text.old (event_word shown event) text.new }
{
    if shown {
        text.put(b" ");
        text.put_number(event);
    }
}

fn put_event_words(text: &mut Text, events: Events)
    ensures { Puts text.old (event_words events.n events.set events.inside) text.new }
{
    for event in 0..events.n {
        put_event_word(text, events.has(event), event);
    }
    text.put(b"\n");
}

// One is merely named, and more are counted first.
fn put_event_count(text: &mut Text, count: usize, one: &[u8], more: &[u8])
    ensures { Puts text.old (event_count count one.now more.now) text.new }
{
    if count == 1 {
        text.put(one);
        text.put(b"event");
        return;
    }
    text.put(more);
    entries::put_counted(text, count, b"event");
    text.put(b":");
}

// As `event 0`, or `these 2 events: 0 3`, after words for the one and for the other.
pub(crate) fn put_event_names(
    text: &mut Text,
    count: usize,
    one: &[u8],
    more: &[u8],
    events: Events,
)
    ensures { Puts text.old (event_names count one.now more.now events.n events.set events.inside) text.new }
{
    put_event_count(text, count, one, more);
    put_event_words(text, events);
}
