// The C face of the case reader: what a case file says, the hut of a row, and where a record's body is.
ghost use Rattle.std.specs.Prelude.{◌≡◌};
ghost use Rattle.storm_case.specs.Case.{read, hut};
ghost use Rattle.records.specs.Records.{found};
ghost use Rattle.case_face.specs.Case.{hut_number, record_at};

use case_face::Record;
use storm_case::Case;

// Reads a file into room for 4,096 costs and 4,096 mask bytes: `storm_case::read_case`.
#[unsafe(no_mangle)]
pub extern "C" fn serbihun_read_case(file: &[u8], costs: &mut [i32], mask: &mut [u8]) -> Case
    ensures { (result, costs.new, mask.new) ≡ read file.now costs.old mask.old }
{
    Case::from(storm_case::read_case(file, costs, mask))
}

// The hut of a row, or 65,536.
#[unsafe(no_mangle)]
pub extern "C" fn serbihun_hut(file: &[u8], row: usize) -> u32
    ensures { result ≡ hut_number (hut file.now row) }
{
    case_face::hut_number(file, row)
}

// The body of the record at an offset, as a part of the file.
#[unsafe(no_mangle)]
pub extern "C" fn serbihun_record(file: &[u8], at: usize) -> Record
    ensures { result ≡ record_at at (found file.now at) }
{
    case_face::record_at(file, at)
}
