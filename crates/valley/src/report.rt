// A file paired on room of the stack, and the lines that are printed of it.
ghost use Rattle.valley.specs.Report.{Reported};

use crate::print;
use pairing::Room;
use text::Text;

pub(crate) fn report(file: &[u8], out: &mut [u8]) -> usize
    ensures { Reported file.now out.old result out.new }
{
    let mut room = Room::new();
    let pairs = room.pair(file);
    let mut huts = [0u16; 64];
    storm_case::huts_of(file, &mut huts);
    let mut text = Text::begin(out);
    print::put_lines(&mut text, &huts, pairs, &room.columns);
    text.used
}
