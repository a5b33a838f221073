// What the C face answers of a case file beside the reader's own answers: the hut of a row as a number, a record's body as a part of the file, and the huts beside a pairing.
#![tactic(auto)]

ghost use Rattle.std.specs.Prelude.{◌≡◌};
ghost use Rattle.storm_case.specs.Case.{hut};
ghost use Rattle.records.specs.Records.{found};
ghost use Rattle.case_face.specs.Case.{hut_number, record_at, huts_beside};

use storm_case::Rule;

// Where a record's body is, as a part of the file, for C: 0, or the number of what is missing.
#[repr(C)]
#[derive(Drop)]
pub struct Record {
    pub number: u32,
    pub start: usize,
    pub length: usize,
}

// The hut of a row: `storm_case::hut_of`. A hut has 16 bits, so none is the first number above them.
pub fn hut_number(file: &[u8], row: usize) -> u32
    ensures { result ≡ hut_number (hut file.now row) }
{
    storm_case::hut_of(file, row).map_or(65_536, u32::from)
}

// The body of the record at an offset, as a part of the file: `storm_case::find`, with where the body starts.
pub fn record_at(file: &[u8], at: usize) -> Record
    ensures { result ≡ record_at at (found file.now at) }
{
    match storm_case::find(file, at) {
        Ok(length) => Record {
            number: 0,
            start: at + 1,
            length,
        },
        Err(missing) => Record {
            number: Rule::from(missing).number(),
            start: 0,
            length: 0,
        },
    }
}

// The huts of the rows, but where the room was wrong: the file was not looked at then.
pub fn put_huts(file: &[u8], number: u32, huts: &mut [u16])
    ensures { huts.new ≡ huts_beside file.now number huts.old }
{
    if number != Rule::Room.number() {
        storm_case::huts_of(file, huts);
    }
}
