// Sets of lines as 64-bit words; and in specs/ and proofs/, facts about a line of cells, each once over its length.
#![tactic(auto)]

ghost use Rattle.std.specs.Prelude.{◌≡◌, ◌<◌};
ghost use Rattle.lines.specs.Sets.{has as sets_has};

// Bit i of a set is line i.
pub fn has(set: u64, line: usize) -> bool
    requires { line < 64 }
    ensures { result ≡ sets_has set line }
{
    (set >> line) & 1 == 1
}
