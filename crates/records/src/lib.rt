// Records of a case file: what stands at an offset, and the body there as a part of the file.
#![tactic(auto)]

ghost use Rattle.std.specs.Prelude.{◌≡◌};
ghost use Rattle.records.specs.Records.{body_length, code_of, body as records_body, Decodes, Finds, FindsKind};

// The kinds of record.
#[derive(Clone, Copy, PartialEq, Eq, Debug)]
pub enum Kind {
    Size,
    Fragment,
    Event,
    End,
}

// Why no whole record stands at an offset: the file ends where a kind or body byte is due, or the kind is unknown.
#[derive(Clone, Copy, PartialEq, Eq, Debug)]
pub enum Missing {
    Cut,
    Unknown,
}

impl TryFrom<u8> for Kind {
    type Error = Missing;

    ghost try_from_gives = { Decodes };

    #[tactic(auto, unfolding(crate::specs::Records::known))]
    fn try_from(code: u8) -> Result<Self, Missing> {
        match code {
            1 => Ok(Kind::Size),
            2 => Ok(Kind::Fragment),
            3 => Ok(Kind::Event),
            4 => Ok(Kind::End),
            _ => Err(Missing::Unknown),
        }
    }
}

// By kind, in their order.
static BODY_LENGTHS: [usize; 4] = [6, 8, 6, 0];

impl Kind {
    #[tactic(auto, unfolding(crate::specs::Records::body_length))]
    fn body_length(self) -> usize
        ensures { result ≡ body_length (code_of self) }
    {
        BODY_LENGTHS[self as usize]
    }
}

// The kind of the whole record at an offset.
pub fn find_kind(file: &[u8], at: usize) -> Result<Kind, Missing>
    ensures { FindsKind file.now at result }
{
    let Some(&code) = file.get(at) else {
        return Err(Missing::Cut);
    };
    let kind = Kind::try_from(code)?;
    if file.len() - (at + 1) < kind.body_length() {
        return Err(Missing::Cut);
    }
    Ok(kind)
}

// The length of the body at an offset.
pub fn find(file: &[u8], at: usize) -> Result<usize, Missing>
    ensures { Finds file.now at result }
{
    Ok(find_kind(file, at)?.body_length())
}

// The body of the record at an offset, as that part of the file; an empty part where there is none.
pub fn body(file: &[u8], at: usize) -> &[u8]
    ensures { result.now ≡ records_body file.now at }
{
    match find(file, at) {
        Ok(length) => &file[at + 1..at + 1 + length],
        Err(_) => &[],
    }
}
