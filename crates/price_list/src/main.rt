// Reads a case file from standard input and prints why its pairing is right: the price list, or the block that leaves no pairing.
// With the word `short` the list has the pairs, prices and sums alone. Any other word is refused on standard error, and nothing is printed.
// Where reading or writing fails it says so on standard error, and nothing else.
#![tactic(auto)]

mod print;
mod report;
mod word;

use std::env::{Env, FillError};
use std::io;

// Was the program started with a word of this number? Its own name has number 0.
fn has_word(rt: &impl Env, number: usize) -> bool {
    !matches!(rt.arg(number, &mut []), Err(FillError::NotPresent))
}

// Is the short list asked for? None where a word is another than the program takes, or one too many.
fn asks_short(rt: &impl Env) -> Option<bool> {
    let mut word = [0u8; 8];
    // A longer word is another than it takes.
    let length = rt.arg(1, &mut word).unwrap_or(0);
    let short = word::is_short(&word[..length]);
    let words = (0..3).take_while(|&number| has_word(rt, number)).count();
    word::taken(words, short).then_some(short)
}

// What fails is named beside the error. An accepted file has at most 1,032 bytes, and what is printed of a file at most 313,550.
fn print_list(rt: &HostRuntime, short: bool) -> Result<(), (&'static str, io::Error)> {
    let mut file = [0u8; 4096];
    let count = input::read(&mut rt.stdin(), &mut file).map_err(|error| (
        "price_list: standard input",
        error,
    ))?;
    let mut out = [0u8; 524288];
    let used = report::report(short, &file[..count], &mut out);
    rt.write_all(&out[..used])
        .map_err(|error| ("price_list: standard output", error))
}

fn main(rt: HostRuntime) {
    let Some(short) = asks_short(&rt) else {
        let _ = rt.eprintln("price_list: the only word that it takes is short");
        return;
    };
    if let Err((what, error)) = print_list(&rt, short) {
        let _ = input::fail(&mut rt.stderr(), what.as_bytes(), error);
    }
}
