// How many trials were made, and how many of them passed.
use std::fmt;

#[derive(Clone, Copy, Default)]
pub(crate) struct Tally {
    passed: u64,
    tried: u64,
}

impl Tally {
    // One more trial.
    pub(crate) fn count(&mut self, passed: bool) {
        self.tried = self.tried.saturating_add(1);
        if passed {
            self.passed = self.passed.saturating_add(1);
        }
    }
}

impl fmt::Display for Tally {
    fn fmt<W: fmt::Write>(&self, f: &mut fmt::Formatter<W>) -> fmt::Result {
        let Tally { passed, tried } = *self;
        write!(f, "{passed} of {tried}")
    }
}
