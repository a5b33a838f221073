// How many records came out as stored, in all and by their number, and how many did not.
use std::fmt;

#[derive(Clone, Copy)]
pub(crate) struct Counts {
    by_number: [u64; 256],
    equal: u64,
    different: u64,
}

impl Counts {
    pub(crate) fn new() -> Counts {
        Counts {
            by_number: [0; 256],
            equal: 0,
            different: 0,
        }
    }

    pub(crate) fn count_equal(&mut self, number: u8) {
        let count = &mut self.by_number[usize::from(number)];
        *count = count.saturating_add(1);
        self.equal = self.equal.saturating_add(1);
    }

    pub(crate) fn count_different(&mut self) {
        self.different = self.different.saturating_add(1);
    }

    // How many came out as stored with this number.
    pub(crate) fn of(&self, number: u8) -> u64 {
        self.by_number[usize::from(number)]
    }

    pub(crate) fn records(&self) -> u64 {
        self.equal.saturating_add(self.different)
    }
}

impl fmt::Display for Counts {
    fn fmt<W: fmt::Write>(&self, f: &mut fmt::Formatter<W>) -> fmt::Result {
        let equal = self.equal;
        let different = self.different;
        write!(f, "{equal} equal, {different} different")
    }
}
