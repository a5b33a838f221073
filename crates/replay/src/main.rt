// Replays stored answers: of the published crate munkres, on the solvers (the file `answers`), and of the rules of the case file, on the case
// reader (`files`). rust/oracle/README.md and rust/cases/README.md have the formats; a record has its length before it in both.
#![tactic(auto)]

mod answer;
mod counts;
mod file;
mod record;

use counts::Counts;
use std::fs::File;
use std::io::Read;

// More records than there are; a file need not end.
const MANY: u64 = 1_000_000;

// No record is longer.
const LONGEST: usize = 65_535;

// What the next record came to: it is as stored, with its number; it is not; it is not, and none can follow; or there is none.
#[derive(Clone, Copy, PartialEq, Eq)]
enum Outcome {
    Equal(u8),
    Different,
    Cut,
    End,
}

// How many bytes are read until the file ends or the buffer is full; none where a read fails.
fn read_full(file: &mut impl Read, room: &mut [u8]) -> usize {
    input::read(file, room).unwrap_or(0)
}

// Reads the next record and replays it.
fn replay_next<F: Fn(&[u8]) -> Option<u8>>(file: &mut impl Read, replay: &F) -> Outcome
    requires { F.IsAlwaysCallable replay.now }
{
    let mut length = [0u8; 4];
    if read_full(file, &mut length) < length.len() {
        return Outcome::Cut;
    }
    let length = u32::from_le_bytes(length) as usize;
    if length == 0 {
        // Nothing may follow the last record.
        return match read_full(file, &mut [0u8; 1]) {
            0 => Outcome::End,
            _ => Outcome::Cut,
        };
    }
    let mut room = [0u8; LONGEST];
    let Some(record) = room.get_mut(..length) else {
        return Outcome::Cut;
    };
    if read_full(file, record) < record.len() {
        return Outcome::Cut;
    }
    match replay(record) {
        Some(number) => Outcome::Equal(number),
        None => Outcome::Different,
    }
}

// Replays all records behind the header of a file; says which are not as stored, the first being record 0. None where the file is not opened.
fn replay_stored<F: Fn(&[u8]) -> Option<u8>>(
    rt: &HostRuntime,
    path: &str,
    replay: F,
) -> Option<Counts>
    requires { F.IsAlwaysCallable replay }
{
    let mut file = match File::open(rt, path) {
        Ok(file) => file,
        Err(error) => {
            let _ = input::fail(&mut rt.stderr(), path.as_bytes(), error);
            return None;
        }
    };
    read_full(&mut file, &mut [0u8; 128]);
    let mut counts = Counts::new();
    for _ in 0..MANY {
        let outcome = replay_next(&mut file, &replay);
        match outcome {
            Outcome::Equal(number) => counts.count_equal(number),
            Outcome::End => break,
            Outcome::Different | Outcome::Cut => {
                let record = counts.records();
                let _ = println!(rt; "different: record {record}");
                counts.count_different();
            }
        }
        if outcome == Outcome::Cut {
            break;
        }
    }
    Some(counts)
}

fn main(rt: HostRuntime) {
    if let Some(counts) = replay_stored(&rt, "answers", answer::replay) {
        let _ = println!(rt; "paired {}", counts.of(0));
        let _ = println!(rt; "no pairing {}", counts.of(6));
        let _ = println!(rt; "unfinished {}", counts.of(7));
        let replayed = counts.records();
        let _ = println!(rt; "replayed {replayed} answers of the crate: {counts}");
    }
    if let Some(counts) = replay_stored(&rt, "files", file::replay) {
        let _ = println!(rt; "accepted {}", counts.of(0));
        for number in 20..27 {
            let _ = println!(rt; "number {number}: {}", counts.of(number));
        }
        let replayed = counts.records();
        let _ = println!(rt; "replayed {replayed} files: {counts}");
    }
}
