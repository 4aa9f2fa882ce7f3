// The answers of the tested calls, each with what it tells.
use crate::guarded::Guarded;
use comparison::RefusedLog;
use profile::Refusal;
use table::Filled;
use verdict::Judged;

// What a call tells that is not refused; a call that judges nothing tells no verdict.
#[derive(Clone, Copy, PartialEq, Eq)]
pub struct Told {
    pub verdict: Option<bool>,
    pub prefixes: usize,
    pub looks: usize,
}

// A refusal by its number and place; the log is that of a comparison.
// Kept: log 0 for none, as the comparison tells it.
#[derive(Clone, Copy, PartialEq, Eq)]
pub struct Refused {
    pub number: usize,
    pub place: usize,
    pub log: usize,
}

impl Refused {
    pub fn by(number: usize) -> Self {
        Refused::at(number, 0)
    }

    pub fn at(number: usize, place: usize) -> Self {
        Refused {
            number,
            place,
            log: 0,
        }
    }

    pub fn of(r: Refusal) -> Self {
        Refused::at(refusals::number(r) as usize, refusals::place(r))
    }
}

// None where a buffer is too small for the part that is to be lent: no call, no answer.
pub type Answer = Option<Result<Told, Refused>>;

fn tells(verdict: Option<bool>, prefixes: usize, looks: u64) -> Answer {
    Some(Ok(Told {
        verdict,
        prefixes,
        looks: looks as usize,
    }))
}

fn refuses(r: Refusal) -> Answer {
    Some(Err(Refused::of(r)))
}

pub fn of_judged(judged: Result<Judged, Refusal>) -> Answer {
    match judged {
        Ok(Judged::NoOrder { prefixes, looks }) => tells(Some(false), prefixes, looks),
        Ok(Judged::Order { prefixes, looks }) => tells(Some(true), prefixes, looks),
        Err(r) => refuses(r),
    }
}

pub fn of_built(built: Result<Filled, Refusal>) -> Answer {
    match built {
        Ok(filled) => tells(None, filled.prefixes, filled.looks),
        Err(r) => refuses(r),
    }
}

pub fn of_compared(compared: Result<bool, RefusedLog>) -> Answer {
    match compared {
        Ok(equal) => tells(Some(equal), 0, 0),
        Err(r) => {
            let mut refused = Refused::of(r.refusal);
            refused.log = r.log;
            Some(Err(refused))
        }
    }
}

pub fn of_ordered(ordered: Result<(), Refusal>) -> Answer {
    match ordered {
        Ok(()) => tells(None, 0, 0),
        Err(r) => refuses(r),
    }
}

// The file's length stands in the place of the prefixes.
pub fn of_writing(writing: Result<usize, Refusal>) -> Answer {
    match writing {
        Ok(n) => tells(None, n, 0),
        Err(r) => refuses(r),
    }
}

// The answer is the refusal that is expected, if one is; else it is any answer but a refusal.
pub fn refused_as(answer: Answer, expected: Option<Refused>) -> bool {
    match answer {
        Some(told) => told.err() == expected,
        None => false,
    }
}

pub fn is_refusal(answer: Answer, expected: Refused) -> bool {
    refused_as(answer, Some(expected))
}

// The answer is not a refusal, and has the verdict, P and looks.
pub fn is_told(answer: Answer, verdict: Option<bool>, prefixes: usize, looks: usize) -> bool {
    answer
        == Some(Ok(Told {
            verdict,
            prefixes,
            looks,
        }))
}

pub fn is_verdict(answer: Answer, verdict: bool, prefixes: usize, looks: usize) -> bool {
    is_told(answer, Some(verdict), prefixes, looks)
}

// The verdict; none where the call is refused or judges nothing.
pub fn verdict_of(answer: Answer) -> Option<bool> {
    answer?.ok()?.verdict
}

// A refusal leaves the order buffer as it was, and the table too unless the number is 10: then what lies past the lent part stays.
pub fn is_unchanged<const M: usize, const N: usize>(
    number: usize,
    order: &Guarded<u8, M>,
    table: &Guarded<u32, N>,
) -> bool {
    let free = if number == 10 { table.size() } else { 0 };
    order.stays() & table.stays_behind(free)
}
