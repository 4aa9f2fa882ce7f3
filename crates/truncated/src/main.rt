// Prints what the program `judge` prints for document 01's file cut at every length, from none of its bytes to all of them.
#![tactic(auto)]

use profile::limits::{PROGRAM_NUMBERS, PROGRAM_TEXT};
use std::process::ExitCode;

fn show(rt: &(impl Print + Eprint), file: &[u8]) -> bool {
    let mut out = [0u8; PROGRAM_TEXT];
    let mut work = [0u32; PROGRAM_NUMBERS];
    let r = report::respond(file, &mut out, &mut work);
    streams::print(rt, &out[0..r], "truncated: standard output")
}

fn main(rt: HostRuntime) -> ExitCode {
    let file = [
        2u8, 0, 1, 0, 2, 0, 0, 0, 0, 0, 0, 0, 0, 0, 0, 0, 1, 0, 0, 0, 1, 1, 0, 0, 2, 2, 0, 4, 24,
        0, 20, 0, 4, 0, 0, 0, 1, 0, 0, 0,
    ];
    for n in 0..=40 {
        if !show(&rt, &file[0..n]) {
            return ExitCode::FAILURE;
        }
    }
    ExitCode::SUCCESS
}
