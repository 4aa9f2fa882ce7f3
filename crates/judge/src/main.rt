// The program `judge`: reads standard input as one log file, to its end or past 65,536 bytes, and writes what `report::respond` gives. A read or a
// write that fails is told on standard error, and the status is then 1; after a read that fails nothing else is written.
#![tactic(auto)]

use profile::limits::{LONGEST_INPUT, PROGRAM_NUMBERS, PROGRAM_TEXT};
use std::process::ExitCode;

// Prints what is printed for a whole input, and tells whether all of it is written.
fn answer(rt: &(impl Print + Eprint), input: &[u8]) -> bool {
    let mut out = [0u8; PROGRAM_TEXT];
    let mut work = [0u32; PROGRAM_NUMBERS];
    let r = report::respond(input, &mut out, &mut work);
    streams::print(rt, &out[0..r], "judge: standard output")
}

fn main(rt: HostRuntime) -> ExitCode {
    let mut bytes = [0u8; LONGEST_INPUT + 1];
    match streams::read_input(&mut rt.stdin(), &mut bytes) {
        Ok(n) => {
            if answer(&rt, &bytes[0..n]) {
                return ExitCode::SUCCESS;
            }
        }
        Err(why) => streams::tell(&rt, "judge: standard input", why),
    }
    ExitCode::FAILURE
}
