// Why a case file is refused, and where.
ghost use Rattle.std.specs.Prelude.{◌≡◌, Err};
ghost use Rattle.records.specs.Records.{number};
ghost use Rattle.judgement.specs.Refused.{number_of, refusal};

use records::Missing;

// The rules that a file or a caller breaks, with their numbers: the room that is lent is wrong; the file ends where a kind or a body byte is due; the
// kind is unknown; a size not first, or a second one; a line too many, or too few at the end; a size out of range; bytes behind the end.
#[derive(Clone, Copy, PartialEq, Eq, Debug)]
pub enum Rule {
    Room = 20,
    Cut = 21,
    Unknown = 22,
    Order = 23,
    Count = 24,
    Range = 25,
    Behind = 26,
}

// The rule, and the place in the file.
#[derive(Clone, Copy, PartialEq, Eq, Debug)]
pub struct Refusal {
    pub rule: Rule,
    pub place: usize,
}

impl From<Missing> for Rule {
    ghost from_gives = { λ missing rule. number_of rule ≡ number (Err missing) };

    fn from(missing: Missing) -> Rule {
        match missing {
            Missing::Cut => Rule::Cut,
            Missing::Unknown => Rule::Unknown,
        }
    }
}

impl Rule {
    pub fn number(self) -> u32
        ensures { result ≡ number_of self }
    {
        self as u32
    }

    pub fn at(self, place: usize) -> Refusal
        ensures { result ≡ refusal self place }
    {
        Refusal { rule: self, place }
    }
}
