// Standard input, or any other reader, read into a lent buffer, and the line that says what failed. A read that fails is told apart from the end
// of the input.
#![tactic(auto)]

mod failure;

ghost use Rattle.input.specs.Within.{Within, Given};

pub use failure::fail;
use std::io;

// How many bytes are read to the front of the buffer until the input ends or the buffer is full.
// Also a read that would block has failed: the input is not at its end.
pub fn read<R: io::Read>(reader: &mut R, room: &mut [u8]) -> io::Result<usize>
    ensures within { Within result room.new }
    ensures given { Given result (R.remaining reader.old) (R.remaining reader.new) room.new }
{
    let mut count = 0;
    // Each read may bring less than the room; what is left to fill is a slice of it.
    while count < room.len() {
        let more = reader.read(&mut room[count..])?;
        if more == 0 {
            break;
        }
        count += more;
    }
    Ok(count)
}
