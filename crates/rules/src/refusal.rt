// What a rule refuses, and what stops a call before the steps begin.
ghost use Rattle.std.specs.Prelude.{◌≡◌};
ghost use Rattle.rules.specs.View.{number_of, place_of};
ghost use Rattle.rules.specs.declared.refusal.Stop.TheVariants.{Refused};

// What a rule found. A cell that is refused is named: the lowest.
#[derive(Clone, Copy, Debug, PartialEq, Eq)]
pub enum Refusal {
    NoRows,
    TooManyRows,
    WrongLength,
    BadMask(usize),
    BadCost(usize),
}

impl Refusal {
    // The number by which the caller knows it.
    pub fn number(self) -> u32
        ensures { result ≡ number_of self }
    {
        match self {
            Refusal::NoRows => 1,
            Refusal::TooManyRows => 2,
            Refusal::WrongLength => 3,
            Refusal::BadMask(_) => 4,
            Refusal::BadCost(_) => 5,
        }
    }

    // The cell, or 0 where it is none's.
    pub fn place(self) -> usize
        ensures { result ≡ place_of self }
    {
        match self {
            Refusal::BadMask(cell) => cell,
            Refusal::BadCost(cell) => cell,
            _ => 0,
        }
    }
}

// Why the steps do not begin: a rule refuses, or a row has no allowed cell.
#[derive(Clone, Copy, Debug, PartialEq, Eq)]
pub enum Stop {
    Refused(Refusal),
    DeadRow(usize),
}

impl From<Refusal> for Stop {
    ghost from_gives = { λ refusal stop. stop ≡ Refused refusal };

    fn from(refusal: Refusal) -> Stop {
        Stop::Refused(refusal)
    }
}
