// The limits of code are those of the definitions. A constant of code has no name in a proof: a function that gives them all says so by its contract.
#![tactic(auto)]

ghost use Rattle.std.specs.Prelude.{◌≡◌, [], ◌∷◌, ◌^◌};
ghost use Rattle.profile.specs.Limits.{count_bits, count_numbers, counts_per_number, deepest_brackets, finals_byte, length_byte, length_high_byte, letters_byte, log_byte, longest, longest_input, masks_byte, most_letters, most_moves, most_places, most_records, most_states, most_typed, moves_byte, program_numbers, program_text, record_numbers, start_byte, states_byte, trailer_length, usable_numbers, zero_byte};

use profile::limits::{
    COUNT_BITS, COUNT_BOUND, COUNT_NUMBERS, COUNTS_PER_NUMBER, DEEPEST_BRACKETS, FINALS_BYTE,
    LENGTH_BYTE, LENGTH_HIGH_BYTE, LETTERS_BYTE, LOG_BYTE, LONGEST, LONGEST_INPUT, MASKS_BYTE,
    MOST_LETTERS, MOST_MOVES, MOST_PLACES, MOST_RECORDS, MOST_STATES, MOST_TYPED, MOVES_BYTE,
    PROGRAM_NUMBERS, PROGRAM_TEXT, RECORD_NUMBERS, START_BYTE, STATES_BYTE, TRAILER_LENGTH,
    USABLE_NUMBERS, ZERO_BYTE,
};

// The limits of a profile, a log and typed courses.
pub fn input_limits() -> [usize; 7]
    ensures { result ≡ most_letters ∷ most_states ∷ most_moves ∷ longest ∷ most_places ∷ deepest_brackets ∷ most_typed ∷ [] }
{
    [
        MOST_LETTERS,
        MOST_STATES,
        MOST_MOVES,
        LONGEST,
        MOST_PLACES,
        DEEPEST_BRACKETS,
        MOST_TYPED,
    ]
}

// The sizes of a table and its records.
pub fn table_limits() -> [usize; 7]
    ensures { result ≡ count_bits ∷ 2 ^ count_bits ∷ counts_per_number ∷ count_numbers ∷ record_numbers ∷ usable_numbers ∷ most_records ∷ [] }
{
    [
        COUNT_BITS,
        COUNT_BOUND as usize,
        COUNTS_PER_NUMBER,
        COUNT_NUMBERS,
        RECORD_NUMBERS,
        USABLE_NUMBERS,
        MOST_RECORDS,
    ]
}

// The trailer of a file, and the program's sizes.
pub fn file_limits() -> [usize; 14]
    ensures { result ≡ trailer_length ∷ letters_byte ∷ states_byte ∷ start_byte ∷ length_byte ∷ masks_byte ∷ moves_byte ∷ log_byte ∷ length_high_byte ∷ zero_byte ∷ finals_byte ∷ longest_input ∷ program_numbers ∷ program_text ∷ [] }
{
    [
        TRAILER_LENGTH,
        LETTERS_BYTE,
        STATES_BYTE,
        START_BYTE,
        LENGTH_BYTE,
        MASKS_BYTE,
        MOVES_BYTE,
        LOG_BYTE,
        LENGTH_HIGH_BYTE,
        ZERO_BYTE,
        FINALS_BYTE,
        LONGEST_INPUT,
        PROGRAM_NUMBERS,
        PROGRAM_TEXT,
    ]
}
