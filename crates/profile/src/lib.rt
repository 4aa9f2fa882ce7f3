// The words of the judge: profiles and refusals. The definitions of `specs/` say what they mean.
pub mod limits;

use limits::Place;

// The numbers of a profile; its masks and moves are slices beside it.
#[derive(Clone, Copy)]
pub struct Shape {
    pub k: usize,
    pub s: usize,
    pub start: usize,
    pub finals: u32,
}

// A profile as a call is lent it.
#[derive(Clone, Copy)]
pub struct Profile<'a> {
    pub shape: Shape,
    pub masks: &'a [u16],
    pub moves: &'a [u32],
}

// Where the events of a log stand: the places of each letter's events one after the other, and where those of each letter start.
#[derive(Clone, Copy)]
pub struct Places<'a> {
    pub starts: &'a [Place],
    pub places: &'a [Place],
}

// A day for each event of a log, and terms: the first day and the last of each in turn.
#[derive(Clone, Copy)]
pub struct Calendar<'a> {
    pub days: &'a [u32],
    pub terms: &'a [u32],
}

// Why a call is refused. The definitions of `specs/Refusals.antt` give the number and the place.
#[derive(Clone, Copy, Debug, PartialEq, Eq)]
pub enum Refusal {
    ShortFile,
    OutOfRange,
    Distance,
    MaskBit,
    StateBit,
    LongLog,
    BadLetter(usize),
    ShortBuffer,
    FullTable,
    BadText(usize),
    DeepText,
    LongText,
    BadDay,
    BadTerm,
    NoTerm,
    ShortCosts,
    BadGroups,
    HighCeiling,
    ViewBit,
    BadRule,
    ShortSets,
}
