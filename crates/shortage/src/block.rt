// Why there is no pairing, in words: the fragments of the block, the events that are left for them, and the events of the block.
ghost use Rattle.std.specs.Prelude.{◌<◌};
ghost use Rattle.text.specs.Puts.{Puts};
ghost use Rattle.shortage.specs.Block.{head, these, block_row, block_rows, fragments, left_words, since, end_words, block};

use crate::events::{Events, put_event_names};
use crate::numbers;
use entries::Solved;
use text::Text;

// The title, and how large the case is.
pub fn put_head(text: &mut Text, solved: &Solved)
    ensures { Puts text.old (head solved.now.n solved.now.window) text.new }
{
    text.put(b"NO PAIRING\n");
    entries::put_size(text, solved.n, solved.window);
    text.put(b"\n\n");
}

// One as `This fragment`, more as `These 2 fragments`.
fn put_these(text: &mut Text, count: usize, one: &[u8], more: &[u8])
    ensures { Puts text.old (these count one.now more.now) text.new }
{
    if count == 1 {
        text.put(one);
        text.put(b"fragment");
        return;
    }
    text.put(more);
    entries::put_counted(text, count, b"fragment");
}

// The line of a row, where the set has it.
#[tactic(auto, using(text::proofs::PutLaws::puts_none), unfolding(crate::specs::Block::block_row))]
fn put_block_row(text: &mut Text, rows: u64, row: usize, hut: u16)
    requires { row < 64 }
    ensures { Puts text.old (block_row rows row hut) text.new }
{
    if lines::has(rows, row) {
        entries::put_hut(text, row, hut);
    }
}

// The rows of the set, with their huts.
fn put_block_rows(text: &mut Text, solved: &Solved, rows: u64)
    ensures { Puts text.old (block_rows solved.now.n rows solved.now.huts) text.new }
{
    text.put(b"  row    hut\n");
    for row in 0..solved.n {
        put_block_row(text, rows, row, solved.huts[row]);
    }
}

// The fragments of the block, with their huts.
fn put_fragments(text: &mut Text, count: usize, solved: &Solved, rows: u64)
    ensures { Puts text.old (fragments count solved.now.n rows solved.now.huts) text.new }
{
    put_these(text, count, b"This ", b"These ");
    text.put(b":\n");
    put_block_rows(text, solved, rows);
}

// The events outside the block.
fn put_left(text: &mut Text, solved: &Solved, events: u64, left: usize)
    ensures { Puts text.old (left_words solved.now.n events left) text.new }
{
    if left == 0 {
        text.put(b"may be paired with no event,\n");
        return;
    }
    let outside = Events {
        n: solved.n,
        set: events,
        inside: false,
    };
    put_event_names(
        text,
        left,
        b"may be paired only with ",
        b"may be paired only with these ",
        outside,
    );
}

// That no pair of the block is allowed.
fn put_since(text: &mut Text, row_count: usize, event_count: usize, solved: &Solved, events: u64)
    ensures { Puts text.old (since row_count event_count solved.now.n solved.now.window events) text.new }
{
    put_these(text, row_count, b"since this ", b"since each of these ");
    let inside = Events {
        n: solved.n,
        set: events,
        inside: true,
    };
    put_event_names(text, event_count, b" and ", b" and each of these ", inside);
    text.put(b"differ in area or lie more than ");
    text.put_number(solved.window);
    text.put(b" ms apart.\n");
}

fn put_end(text: &mut Text, rows: usize, left: usize)
    ensures { Puts text.old (end_words rows left) text.new }
{
    if left == 0 {
        text.put(b"So no pairing exists.\n");
        return;
    }
    entries::put_counted(text, rows, b"fragment");
    text.put(b" cannot share ");
    entries::put_counted(text, left, b"event");
    text.put(b", so no pairing exists.\n");
}

// The block is given by its rows and by its events.
pub fn put_block(text: &mut Text, solved: &Solved, rows: u64, events: u64)
    ensures { Puts text.old (block solved.now.n solved.now.window rows events solved.now.huts) text.new }
{
    let row_count = numbers::count(solved.n, rows);
    let event_count = numbers::count(solved.n, events);
    let left = solved.n - event_count;
    put_fragments(text, row_count, solved, rows);
    put_left(text, solved, events, left);
    put_since(text, row_count, event_count, solved, events);
    put_end(text, row_count, left);
}
