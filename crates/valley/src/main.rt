// Reads a case file from standard input, pairs its fragments with its events, and prints which hut goes with which column, and the total.
// Where reading or writing fails it says so on standard error, and nothing else.
#![tactic(auto)]

mod print;
mod report;

use std::io;

// What fails is named beside the error. An accepted file has at most 1,032 bytes, and what is printed of a file at most 594.
fn print_pairing(rt: &HostRuntime) -> Result<(), (&'static str, io::Error)> {
    let mut file = [0u8; 4096];
    let count = input::read(&mut rt.stdin(), &mut file).map_err(|error| (
        "valley: standard input",
        error,
    ))?;
    let mut out = [0u8; 1024];
    let used = report::report(&file[..count], &mut out);
    rt.write_all(&out[..used])
        .map_err(|error| ("valley: standard output", error))
}

fn main(rt: HostRuntime) {
    if let Err((what, error)) = print_pairing(&rt) {
        let _ = input::fail(&mut rt.stderr(), what.as_bytes(), error);
    }
}
