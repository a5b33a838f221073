// The offsets of records of one kind, at most 64, in file order.
ghost use Rattle.std.specs.Prelude.{◌≤◌};

// A list, `listed`; the places behind it hold nothing. No `impl Model`: it would forget those places, and what forgets a field is not `Copy`.
#[derive(Clone, Copy)]
pub struct Offsets {
    places: [usize; 64],
    count: usize,
    pub ghost few: { count ≤ 64 },
}

impl Offsets {
    ghost use Rattle.std.specs.Prelude.{◌≡◌, ◌<◌, ◌++◌, ◌∷◌, [], length};
    ghost use Rattle.judgement.specs.Listed.{listed};

    pub(crate) fn new() -> Self
        ensures { listed result ≡ [] }
    {
        Offsets {
            places: [0; 64],
            count: 0,
        }
    }

    pub(crate) fn clear(&mut self)
        ensures { listed self.new ≡ [] }
    {
        self.count = 0;
    }

    pub(crate) fn push(&mut self, at: usize)
        requires { length (listed self.old) < 64 }
        ensures { listed self.new ≡ listed self.old ++ at ∷ [] }
    {
        self.places[self.count] = at;
        self.count += 1;
    }

    pub fn len(&self) -> usize
        ensures { result ≡ length (listed self.now) }
    {
        self.count
    }

    pub fn as_slice(&self) -> &[usize]
        ensures { result.now ≡ listed self.now }
    {
        &self.places[..self.count]
    }
}
