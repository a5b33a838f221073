// The run: the covered lines, the three counts and what is next; and each way in which a step leaves it, by the definition's name.
ghost use Rattle.std.specs.Prelude.{◌≡◌, ◌+◌, ◌^◌, ◌<◌};
ghost use Rattle.steps.specs.Counts.{over};
ghost use Rattle.steps.specs.Steps.{run_with, to as steps_to, covering as steps_covering, reaching as steps_reaching, augmenting as steps_augmenting, adjusting as steps_adjusting};
ghost use Rattle.steps.specs.Outcome.{no_run};
ghost use Rattle.ground.specs.View.{view, view_next, Covers};

use crate::sets;

// The step to make, with the place that it carries; or an end.
#[derive(Clone, Copy)]
pub enum Next {
    Step3,
    Step4,
    Step5(usize, usize),
    Step6,
    Paired,
    NoPairing,
    Unfinished,
}

impl Next {
    pub fn is_over(self) -> bool
        ensures { result ≡ over (view_next self) }
    {
        matches!(self, Next::Paired | Next::NoPairing | Next::Unfinished)
    }
}

// The covered rows and columns, the three counts, and what is next.
#[derive(Clone, Copy)]
pub struct Run {
    pub rows: u64,
    pub columns: u64,
    pub adjustments: u32,
    pub primes: u32,
    pub augmentations: u32,
    pub next: Next,
}

impl Run {
    // Nothing covered, nothing counted, and step 3 next.
    pub fn begun() -> Run
        ensures { view result ≡ no_run }
    {
        Run {
            rows: 0,
            columns: 0,
            adjustments: 0,
            primes: 0,
            augmentations: 0,
            next: Next::Step3,
        }
    }

    pub fn to(self, next: Next) -> Run
        ensures { view result ≡ steps_to (view_next next) (view self) }
    {
        Run { next, ..self }
    }

    // Step 3: these columns are covered.
    pub fn crossing(self, columns: u64, next: Next) -> Run
        ensures { view result ≡ run_with self.rows columns self.adjustments self.primes self.augmentations (view_next next) }
    {
        Run {
            columns,
            next,
            ..self
        }
    }

    // Step 4, where the prime's row has a star: the row is covered, and the star's column uncovered.
    pub fn covering(self, row: usize, star: usize) -> Run
        requires { Covers row star self.primes }
        ensures { view result ≡ steps_covering row star (view self) }
    {
        Run {
            rows: sets::cover(self.rows, row),
            columns: sets::uncover(self.columns, star),
            primes: self.primes + 1,
            next: Next::Step4,
            ..self
        }
    }

    // And where it has none.
    pub fn reaching(self, row: usize, column: usize) -> Run
        requires { self.primes + 1 < 2 ^ 32 }
        ensures { view result ≡ steps_reaching row column (view self) }
    {
        Run {
            primes: self.primes + 1,
            next: Next::Step5(row, column),
            ..self
        }
    }

    pub fn augmenting(self) -> Run
        requires { self.augmentations + 1 < 2 ^ 32 }
        ensures { view result ≡ steps_augmenting (view self) }
    {
        Run {
            rows: 0,
            columns: 0,
            augmentations: self.augmentations + 1,
            next: Next::Step3,
            ..self
        }
    }

    pub fn adjusting(self) -> Run
        requires { self.adjustments + 1 < 2 ^ 32 }
        ensures { view result ≡ steps_adjusting (view self) }
    {
        Run {
            adjustments: self.adjustments + 1,
            next: Next::Step4,
            ..self
        }
    }
}
