// How many lines a set has.
ghost use Rattle.std.specs.Prelude.{◌≡◌, ◌≤◌, length};
ghost use Rattle.std.specs.List.{filter, range_with_len};
ghost use Rattle.lines.specs.Sets.{has};

// How many of the first n lines the set has.
pub(crate) fn count(n: usize, set: u64) -> usize
    requires { n ≤ 64 }
    ensures value { result ≡ length (filter (has set) (range_with_len 0 n)) }
    ensures within { result ≤ n }
{
    (0..n).filter(|line| lines::has(set, *line)).count()
}
