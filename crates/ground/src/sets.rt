// A set of rows or of columns: one 64-bit word, bit i for line i.
ghost use Rattle.std.specs.Prelude.{◌≡◌, cond, ◌≢◌, ◌%◌, ◌^◌, ◌<◌};
ghost use Rattle.std.specs.Iterator.{at_most};
ghost use Rattle.lines.specs.First.{first};
ghost use Rattle.lines.specs.Walk.{Step};
ghost use Rattle.lines.specs.Sets.{has, with, without, all as all_below, rest};
ghost use Rattle.ground.specs.Square.{InWord};

pub fn cover(lines: u64, line: usize) -> u64
    requires { line < 64 }
    ensures { result ≡ with lines line }
{
    lines | (1u64 << line)
}

pub fn uncover(lines: u64, line: usize) -> u64
    requires { line < 64 }
    ensures { result ≡ without lines line }
{
    lines & !(1u64 << line)
}

// The first n lines.
pub fn all_lines(n: usize) -> u64
    requires { InWord n }
    ensures { result ≡ all_below n }
{
    u64::MAX >> (64 - n)
}

// The lines below n that are not covered.
pub fn uncovered_lines(n: usize, lines: u64) -> u64
    requires { InWord n }
    ensures { result ≡ rest n lines }
{
    !lines & all_lines(n)
}

// The lines below n that are covered, or those that are not.
pub fn lines_alike(n: usize, lines: u64, covered: bool) -> u64
    requires { InWord n }
    ensures { result ≡ cond covered (lines % 2 ^ n) (rest n lines) }
{
    if covered {
        lines & all_lines(n)
    } else {
        uncovered_lines(n, lines)
    }
}

// ---- the members of a set, from the lowest upwards: a test of every line is a branch seldom foretold

// The lowest line of a set; 64 if it is empty.
pub fn lowest_line(lines: u64) -> usize
    ensures { result ≡ first (has lines) 64 }
{
    lines.trailing_zeros() as usize
}

// A set without its lowest line.
pub fn without_lowest(lines: u64) -> u64
    requires { lines ≢ 0 }
    ensures { result ≡ without lines (first (has lines) 64) }
{
    lines & (lines - 1)
}

// The members that are still to be met.
#[derive(Drop)]
pub struct Lines {
    left: u64,
}

pub fn members(lines: u64) -> Lines
    ensures { result.left ≡ lines }
{
    Lines { left: lines }
}

impl Iterator for Lines {
    type Item = usize;

    ghost next_gives = { λ before met after. Step before.left met after.left };

    ghost remaining = { λ lines. at_most lines.left };

    fn next(&mut self) -> Option<usize> {
        if self.left == 0 {
            return None;
        }
        let line = lowest_line(self.left);
        self.left = without_lowest(self.left);
        Some(line)
    }
}
