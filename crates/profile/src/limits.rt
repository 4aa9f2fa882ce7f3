// The limits of documents 01 and 02, each once: `specs/Limits.antt` has the same names with the documents' words.

// The letters and the states of a profile, and its moves: so many at most.
pub const MOST_LETTERS: usize = 16;

pub const MOST_STATES: usize = 32;

pub const MOST_MOVES: usize = MOST_STATES * MOST_LETTERS;

// The letters of a log, so many at most.
pub const LONGEST: usize = 4000;

// The place of an event in a log, or a log's length.
pub type Place = u16;

// The places of a log's events by letter, with the log's length behind those of each letter: so many at most.
pub const MOST_PLACES: usize = LONGEST + MOST_LETTERS;

// A record: the bits of a count, what a count stays below, the counts in a number, the numbers that hold counts, and all numbers.
pub const COUNT_BITS: usize = 16;

pub const COUNT_BOUND: u32 = 65536;

pub const COUNTS_PER_NUMBER: usize = 2;

pub const COUNT_NUMBERS: usize = 8;

pub const RECORD_NUMBERS: usize = COUNT_NUMBERS + 2;

// The numbers of a table that are used, so many at most, and the records that these have place for.
pub const USABLE_NUMBERS: usize = 4294967292;

pub const MOST_RECORDS: usize = USABLE_NUMBERS / RECORD_NUMBERS;

// The trailer of a file, and where in it each of its numbers begins.
pub const TRAILER_LENGTH: usize = 16;

pub const LETTERS_BYTE: usize = 0;

pub const STATES_BYTE: usize = 1;

pub const START_BYTE: usize = 2;

pub const LENGTH_BYTE: usize = 3;

pub const MASKS_BYTE: usize = 4;

pub const MOVES_BYTE: usize = 6;

pub const LOG_BYTE: usize = 8;

pub const LENGTH_HIGH_BYTE: usize = 10;

pub const ZERO_BYTE: usize = 11;

pub const FINALS_BYTE: usize = 12;

// The program's input, in bytes, its table, in numbers, and the room for what it prints.
pub const LONGEST_INPUT: usize = 65536;

pub const PROGRAM_NUMBERS: usize = 16380;

pub const PROGRAM_TEXT: usize = 16384;

// Typed courses: how deep brackets go, and how many letters are typed, at most.
pub const DEEPEST_BRACKETS: usize = 16;

pub const MOST_TYPED: usize = 31;
