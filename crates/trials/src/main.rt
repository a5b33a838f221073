// The compiled solvers, tried. The file `trials` says on what, and what must come out; its head has the format. A line for each group; a trial
// that failed prints its name, and so does one that is not written as it must be, which ends the run.
#![tactic(auto)]

mod call;
mod tally;
mod words;

ghost use Rattle.input.specs.Within.{Within};

use call::call;
use std::fs::File;
use std::io;
use tally::Tally;
use words::{Misread, Words};

// A line: what is said, and of what.
fn print_line(out: &impl Print, said: &[u8], of: &[u8]) {
    let _ = out.write_all(said);
    let _ = out.write_all(of);
    let _ = out.write_all(b"\n");
}

// All calls of a trial, of which there are at most so many: passed where each is kept.
fn try_calls(words: &mut Words<'_>, most: usize) -> Result<bool, Misread> {
    let mut passed = call(words)?;
    for _ in 0..most {
        if !words.passes(b"and") {
            break;
        }
        passed &= call(words)?;
    }
    Ok(passed)
}

// Tries all, and gives how many passed.
fn try_all(out: &impl Print, text: &[u8]) -> Tally {
    let mut words = Words::new(text);
    let mut all = Tally::default();
    let mut group = Tally::default();
    // Each turn passes a word, so there are fewer turns than bytes; that the rest gets shorter would stand in the contract of all that reads.
    for _ in 0..text.len() {
        if words.passes(b"trial") {
            let name = words.line();
            let Ok(passed) = try_calls(&mut words, text.len()) else {
                print_line(out, b"MISREAD", name);
                break;
            };
            if !passed {
                print_line(out, b"FAILED", name);
            }
            all.count(passed);
            group.count(passed);
        } else if words.passes(b"tally") {
            let mut name = Words::new(words.line());
            name.pass_gap();
            let _ = out.write_all(name.line());
            let _ = println!(out; " {group}");
            group = Tally::default();
        } else {
            words.pass_gap();
            let line = words.line();
            if !line.is_empty() {
                print_line(out, b"MISREAD ", line);
            }
            break;
        }
    }
    all
}

fn read_trials(rt: &HostRuntime, room: &mut [u8]) -> io::Result<usize>
    ensures { Within result room.new }
{
    let mut file = File::open(rt, "trials")?;
    input::read(&mut file, room)
}

fn main(rt: HostRuntime) {
    let mut text = [0u8; 65_536];
    let length = match read_trials(&rt, &mut text) {
        Ok(length) => length,
        Err(error) => {
            let _ = input::fail(&mut rt.stderr(), b"trials", error);
            return;
        }
    };
    if length == text.len() {
        let _ = rt.write_all(b"MISREAD: too long\n");
        return;
    }
    let all = try_all(&rt, &text[..length]);
    let _ = println!(rt; "{all} trials passed");
}
