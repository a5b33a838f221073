// The words of a text, one after the other. Blanks and line ends part them, and # begins a comment that ends with its line.
ghost use Rattle.std.specs.Prelude.{◌≤◌, length, IfOk};

// The number X: a cost out of range, for a forbidden cell, where it is not looked at.
const X: i64 = 2_000_000_000;

// Something else is there than must be.
#[derive(Clone, Copy)]
pub(crate) struct Misread;

// What is left of a text.
#[derive(Clone, Copy)]
pub(crate) struct Words<'a> {
    rest: &'a [u8],
}

impl<'a> Words<'a> {
    pub(crate) fn new(text: &'a [u8]) -> Words<'a> {
        Words { rest: text }
    }

    // The next word, which is passed; none behind the last.
    pub(crate) fn next(&mut self) -> Option<&'a [u8]> {
        self.pass_gap();
        let rest = self.rest;
        let end = rest
            .iter()
            .position(|&byte| is_blank(byte))
            .unwrap_or(rest.len());
        let (word, rest) = rest.split_at(end);
        self.rest = rest;
        (!word.is_empty()).then_some(word)
    }

    // Passes what stands before the next word.
    pub(crate) fn pass_gap(&mut self) {
        let rest = self.rest;
        self.rest = &rest[gap(rest)..];
    }

    // What is left of the line, which is passed.
    pub(crate) fn line(&mut self) -> &'a [u8] {
        let rest = self.rest;
        let end = rest
            .iter()
            .position(|&byte| byte == b'\n')
            .unwrap_or(rest.len());
        let (line, rest) = rest.split_at(end);
        self.rest = rest;
        line
    }

    // Is this the next word? It is passed, then.
    pub(crate) fn passes(&mut self, word: &[u8]) -> bool {
        let mut ahead = *self;
        let is_next = ahead.next() == Some(word);
        if is_next {
            *self = ahead;
        }
        is_next
    }

    // Passes this word, which must be the next.
    pub(crate) fn expect(&mut self, word: &[u8]) -> Result<(), Misread> {
        if self.passes(word) {
            return Ok(());
        }
        Err(Misread)
    }

    // The next word as a number without a sign that is at most `limit`.
    pub(crate) fn count(&mut self, limit: usize) -> Result<usize, Misread>
        ensures { IfOk result (λ n. n ≤ limit) }
    {
        match self.next().and_then(digits) {
            Some(number) if number <= limit => Ok(number),
            _ => Err(Misread),
        }
    }

    // The next word as a number.
    pub(crate) fn number(&mut self) -> Result<i64, Misread> {
        self.next().and_then(signed).ok_or(Misread)
    }
}

fn is_blank(byte: u8) -> bool {
    byte <= b' '
}

// How many bytes stand before the first word.
fn gap(text: &[u8]) -> usize
    ensures { result ≤ length text.now }
{
    let mut comment = false;
    for (at, &byte) in text.iter().enumerate() {
        comment = if comment { byte != b'\n' } else { byte == b'#' };
        if !comment && !is_blank(byte) {
            return at;
        }
    }
    text.len()
}

// A number without a sign, with _ among its digits where that reads well.
fn digits(word: &[u8]) -> Option<usize> {
    if word.is_empty() {
        return None;
    }
    let mut number = 0usize;
    for &byte in word {
        if byte != b'_' {
            let digit = char::from(byte).to_digit(10)?;
            number = number.checked_mul(10)?.checked_add(digit as usize)?;
        }
    }
    Some(number)
}

fn signed(word: &[u8]) -> Option<i64> {
    match word {
        b"X" => Some(X),
        [b'-', size @ ..] => Some(-i64::try_from(digits(size)?).ok()?),
        size => i64::try_from(digits(size)?).ok(),
    }
}
