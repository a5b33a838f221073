// The room of what a call writes, by the lengths of its buffers.
ghost use Rattle.std.specs.Prelude.{◌≡◌};
ghost use Rattle.steps.specs.Refusal.{has_room};
ghost use Rattle.rules.specs.View.{room_for};

// How many elements each written buffer has.
#[derive(Clone, Copy, PartialEq, Eq)]
pub struct Room {
    pub working: usize,
    pub marks: usize,
    pub columns: usize,
    pub row_prices: usize,
    pub column_prices: usize,
}

impl Room {
    // What a call takes: squares of so many cells, lines of so many.
    pub fn of(cells: usize, lines: usize) -> Room
        ensures { result ≡ room_for cells lines }
    {
        Room {
            working: cells,
            marks: cells,
            columns: lines,
            row_prices: lines,
            column_prices: lines,
        }
    }
}

// Have the written buffers exactly this room?
pub fn has_room(cells: usize, lines: usize, room: Room) -> bool
    ensures { result ≡ has_room cells lines room.working room.marks room.columns room.row_prices room.column_prices }
{
    room == Room::of(cells, lines)
}
