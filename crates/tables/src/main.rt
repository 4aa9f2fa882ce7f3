// Prints the tables of worked cases: P and looks, then the table of a hundred numbers, ten to a line. A number that is not written stays 7; after
// refusal 10 the table is free and is not printed. M9's and M7's logs come twice, as two readers recorded them: their tables are printed the same.
#![tactic(auto)]

use profile::{Profile, Shape};
use std::io;

fn say_table(rt: &impl Print, numbers: &[u32]) -> io::Result<()> {
    for (i, number) in numbers.iter().enumerate() {
        print!(rt; "{number} ")?;
        if i % 10 == 9 {
            println!(rt;)?;
        }
    }
    Ok(())
}

fn show(rt: &impl Print, profile: &Profile, log: &[u8]) -> io::Result<()> {
    let mut numbers = [7u32; 100];
    let built = table::build(profile, log, &mut numbers);
    match built {
        Err(r) => {
            let number = refusals::number(r);
            print!(rt; "refused {number} ")?;
            if number == 10 {
                return println!(rt;);
            }
        }
        Ok(filled) => {
            print!(rt; "{} {} ", filled.prefixes, filled.looks)?;
        }
    }
    println!(rt;)?;
    say_table(rt, &numbers)
}

// Courses ab, abab and so on, and the empty one.
fn alt_by(rt: &impl Print, masks: &[u16], log: &[u8]) -> io::Result<()> {
    show(
        rt,
        &Profile {
            shape: Shape {
                k: 2,
                s: 2,
                start: 0,
                finals: 1,
            },
            masks,
            moves: &[2u32, 0, 0, 1],
        },
        log,
    )
}

// a and b independent.
fn alt(rt: &impl Print, log: &[u8]) -> io::Result<()> {
    alt_by(rt, &[2u16, 1], log)
}

// Every log is accepted: one state.
fn free(rt: &impl Print, k: usize, masks: &[u16], log: &[u8]) -> io::Result<()> {
    let moves = [1u32; 16];
    if k <= 16 {
        show(
            rt,
            &Profile {
                shape: Shape {
                    k: k,
                    s: 1,
                    start: 0,
                    finals: 1,
                },
                masks,
                moves: &moves[0..k],
            },
            log,
        )?;
    }
    Ok(())
}

// Sixteen letters, the first and the last independent.
fn sixteen_letters(rt: &impl Print) -> io::Result<()> {
    let mut masks = [0u16; 16];
    masks[0] = 32768;
    masks[15] = 1;
    free(rt, 16, &masks, &[15u8, 0, 15])
}

// One letter that leads from each of 32 states to the next, and from the last to the first and to itself.
fn thirty_two_states(rt: &impl Print) -> io::Result<()> {
    let mut moves = [0u32; 32];
    for q in 0..31 {
        moves[q] = 2u32 << q;
    }
    moves[31] = 2147483649;
    show(
        rt,
        &Profile {
            shape: Shape {
                k: 1,
                s: 32,
                start: 30,
                finals: 3,
            },
            masks: &[0u16],
            moves: &moves,
        },
        &[0u8, 0, 0],
    )
}

fn main(rt: HostRuntime) -> io::Result<()> {
    let empty = [0u8; 0];
    alt(&rt, &empty)?;
    alt(&rt, &[1u8, 1, 0, 0])?;
    alt(&rt, &[1u8, 0])?;
    alt(&rt, &[0u8, 1])?;
    alt_by(&rt, &[0u16, 1], &[1u8, 0])?;
    alt_by(&rt, &[2u16, 0], &[1u8, 0])?;
    free(&rt, 4, &[2u16, 1, 0, 0], &[0u8, 1, 2, 1, 0, 3])?;
    free(&rt, 4, &[2u16, 1, 0, 0], &[1u8, 0, 2, 0, 1, 3])?;
    free(&rt, 3, &[2u16, 5, 2], &[2u8, 0, 1])?;
    sixteen_letters(&rt)?;
    thirty_two_states(&rt)?;
    alt(&rt, &[2u8])?;
    alt(&rt, &[1u8, 1, 1, 0, 0, 0])
}
