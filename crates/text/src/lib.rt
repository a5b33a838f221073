// Text put into lent room, piece after piece. What does not fit is left out.
#![tactic(auto)]

ghost use Rattle.std.specs.Prelude.{◌≤◌, length};
ghost use Rattle.text.specs.Numbers.{blanks, right, refusal};

mod number;

pub use number::Number;

// The lent room, and how much of it the text takes. It is no `fmt::Write`: what `write!` says of the text it says only at `Ok`, and
// nothing says that it comes to that.
#[derive(Drop)]
pub struct Text<'a> {
    pub room: &'a mut [u8],
    pub used: usize,
    pub ghost inside: { used ≤ length room.now },
}

impl<'a> Text<'a> {
    ghost use Rattle.text.specs.Puts.{Begins, Goes, Puts};

    // No text yet.
    pub fn begin(room: &'a mut [u8]) -> Text<'a>
        ensures { Begins room.old room.entry.ghost_name result }
    {
        Text::at(room, 0)
    }

    // The text so far takes so much of the room, or all of it.
    pub fn at(room: &'a mut [u8], used: usize) -> Text<'a>
        ensures { Goes room.old room.entry.ghost_name used result }
    {
        let used = used.min(room.len());
        Text { room, used }
    }

    // Bytes as they are.
    pub fn put(&mut self, piece: &[u8])
        ensures { Puts self.old piece.now self.new }
    {
        let count = piece.len().min(self.room.len() - self.used);
        self.room[self.used..self.used + count].copy_from_slice(&piece[..count]);
        self.used += count;
    }

    fn put_blanks(&mut self, wanted: usize)
        ensures { Puts self.old (blanks wanted) self.new }
    {
        let count = wanted.min(self.room.len() - self.used);
        self.room[self.used..self.used + count].fill(b' ');
        self.used += count;
    }

    // A number's digits.
    pub fn put_number<N: Number>(&mut self, n: N)
        ensures { Puts self.old (N.digits n) self.new }
    {
        n.put(self);
    }

    // A number at the right end of a width.
    pub fn put_right<N: Number>(&mut self, width: usize, n: N)
        ensures { Puts self.old (right width (N.digits n)) self.new }
    {
        self.put_blanks(width.saturating_sub(n.length()));
        n.put(self);
    }

    // The line of a refusal, which every program prints alike.
    pub fn put_refusal(&mut self, number: u32, place: usize)
        ensures { Puts self.old (refusal number place) self.new }
    {
        self.put(b"REFUSED ");
        self.put_number(number);
        self.put(b" AT ");
        self.put_number(place);
        self.put(b"\n");
    }
}
