// What failed, and why, as one line.
ghost use Rattle.std.specs.Prelude.{◌≤◌, OnOk, length};
ghost use Rattle.input.specs.Line.{SaysLine};

use std::io;
use std::io::Write;

// Where the words of an error end: before its number, or before the zeros behind it.
fn words_end(text: &[u8]) -> usize
    ensures { result ≤ length text.now }
{
    (0..text.len())
        .find(|&at| text[at] == 0 || text[at..].starts_with(b" (os error "))
        .unwrap_or(text.len())
}

// Says what failed and why, as `valley: standard input: Is a directory`.
pub fn fail<W: Write>(to: &mut W, what: &[u8], error: io::Error) -> io::Result<()>
    ensures { OnOk result (SaysLine (W.contents to.old) (W.contents to.new) what.now) }
{
    let mut text = [0u8; 128];
    let mut rest: &mut [u8] = &mut text;
    // A longer text is cut short.
    let _ = write!(rest, "{error}");
    to.write_all(what)?;
    to.write_all(b": ")?;
    to.write_all(&text[..words_end(&text)])?;
    to.write_all(b"\n")
}
