// The rows and the events that may be paired with none.
ghost use Rattle.std.specs.Prelude.{◌≡◌, ◌<◌};
ghost use Rattle.std.specs.List.{list_any, range_with_len};
ghost use Rattle.text.specs.Puts.{Puts};
ghost use Rattle.case_words.specs.Unfit.{may_pair, unfit_row, unfit_event, unfit_rows, unfit_events, unfit};

use entries::Solved;
use text::Text;

#[tactic(auto, unfolding(crate::specs::Unfit::may_pair))]
fn row_fits(solved: &Solved, row: usize) -> bool
    requires { row < solved.now.n }
    ensures { result ≡ list_any (λ event. may_pair solved.now.n solved.now.mask row event) (range_with_len 0 solved.now.n) }
{
    (0..solved.n).any(|event| solved.may_pair(row, event))
}

#[tactic(auto, unfolding(crate::specs::Unfit::may_pair))]
fn event_fits(solved: &Solved, event: usize) -> bool
    requires { event < solved.now.n }
    ensures { result ≡ list_any (λ row. may_pair solved.now.n solved.now.mask row event) (range_with_len 0 solved.now.n) }
{
    (0..solved.n).any(|row| solved.may_pair(row, event))
}

// As `row 3 (hut 12) fits no event`, unless it fits one.
fn put_unfit_row(text: &mut Text, fits: bool, row: usize, hut: u16)
    ensures { Puts text.old (unfit_row fits row hut) text.new }
{
    if fits {
        return;
    }
    text.put(b"row ");
    text.put_number(row);
    text.put(b" (hut ");
    text.put_number(hut);
    text.put(b") fits no event\n");
}

// As `event 2 fits no fragment`, unless it fits one.
fn put_unfit_event(text: &mut Text, fits: bool, event: usize)
    ensures { Puts text.old (unfit_event fits event) text.new }
{
    if fits {
        return;
    }
    text.put(b"event ");
    text.put_number(event);
    text.put(b" fits no fragment\n");
}

fn put_unfit_rows(text: &mut Text, solved: &Solved)
    ensures { Puts text.old (unfit_rows solved.now.n solved.now.mask solved.now.huts) text.new }
{
    for row in 0..solved.n {
        put_unfit_row(text, row_fits(solved, row), row, solved.huts[row]);
    }
}

fn put_unfit_events(text: &mut Text, solved: &Solved)
    ensures { Puts text.old (unfit_events solved.now.n solved.now.mask) text.new }
{
    for event in 0..solved.n {
        put_unfit_event(text, event_fits(solved, event), event);
    }
}

// Nothing, where each row fits an event and each event a row.
pub fn put_unfit(text: &mut Text, solved: &Solved)
    ensures { Puts text.old (unfit solved.now.n solved.now.mask solved.now.huts) text.new }
{
    put_unfit_rows(text, solved);
    put_unfit_events(text, solved);
}
