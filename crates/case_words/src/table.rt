// What the case says of its rows and of its events, line by line.
ghost use Rattle.std.specs.Prelude.{◌≤◌};
ghost use Rattle.text.specs.Puts.{Puts};
ghost use Rattle.case_words.specs.Case.{row_lines, event_lines, case_lines};

use crate::line;
use text::Text;

fn put_rows(text: &mut Text, n: usize, huts: &[u16; 64], areas: &[u16; 64], clocks: &[u32; 64])
    requires { n ≤ 64 }
    ensures { Puts text.old (row_lines n huts.now areas.now clocks.now) text.new }
{
    text.put(b"  row    hut   area       clock\n");
    for row in 0..n {
        line::put_row(text, row, huts[row], areas[row], clocks[row]);
    }
}

fn put_events(text: &mut Text, n: usize, areas: &[u16; 64], clocks: &[u32; 64])
    requires { n ≤ 64 }
    ensures { Puts text.old (event_lines n areas.now clocks.now) text.new }
{
    text.put(b"\nevent          area       clock\n");
    for event in 0..n {
        line::put_event(text, event, areas[event], clocks[event]);
    }
}

// Every row and every event of a file that has n of each.
pub fn put_case(text: &mut Text, file: &[u8], n: usize)
    requires { n ≤ 64 }
    ensures { Puts text.old (case_lines file.now n) text.new }
{
    // Three arrays, as `huts_of` and `rows_of` write them.
    let mut huts = [0u16; 64];
    let mut areas = [0u16; 64];
    let mut clocks = [0u32; 64];
    storm_case::huts_of(file, &mut huts);
    storm_case::rows_of(file, &mut areas, &mut clocks);
    put_rows(text, n, &huts, &areas, &clocks);
    let mut event_areas = [0u16; 64];
    let mut event_clocks = [0u32; 64];
    storm_case::events_of(file, &mut event_areas, &mut event_clocks);
    put_events(text, n, &event_areas, &event_clocks);
}
