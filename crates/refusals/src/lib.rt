// The number and the place of a refusal: document 01, "A refusal gives its number and a place".
#![tactic(auto)]

ghost use Rattle.std.specs.Prelude.{◌≡◌, ◌<◌, ◌-◌, ◌∷◌, length, replicate};
ghost use Rattle.profile.specs.Refusals.{refusal_number, refusal_place};

use profile::Refusal;

// The number of document 01.
// Kept: `u32::from(r)` would not say which of a refusal's two numbers it gives.
pub fn number(r: Refusal) -> u32
    ensures { result ≡ refusal_number r }
{
    match r {
        Refusal::ShortFile => 1,
        Refusal::OutOfRange => 2,
        Refusal::Distance => 3,
        Refusal::MaskBit => 4,
        Refusal::StateBit => 6,
        Refusal::LongLog => 7,
        Refusal::BadLetter(_) => 8,
        Refusal::ShortBuffer => 9,
        Refusal::FullTable => 10,
        Refusal::BadText(_) => 11,
        Refusal::DeepText => 12,
        Refusal::LongText => 13,
        Refusal::BadDay => 14,
        Refusal::BadTerm => 15,
        Refusal::NoTerm => 16,
        Refusal::ShortCosts => 17,
        Refusal::BadGroups => 18,
        Refusal::HighCeiling => 19,
        Refusal::ViewBit => 20,
        Refusal::BadRule => 21,
        Refusal::ShortSets => 22,
    }
}

// The place of document 01.
pub fn place(r: Refusal) -> usize
    ensures { result ≡ refusal_place r }
{
    match r {
        Refusal::BadLetter(i) | Refusal::BadText(i) => i,
        _ => 0,
    }
}

// A refused call returns the refusal's number, and tells its place and zeros behind it.
pub fn refuse(r: Refusal, told: &mut [u64]) -> u32
    requires { 0 < length told.old }
    ensures number { result ≡ refusal_number r }
    ensures told { told.new ≡ refusal_place r ∷ replicate (length told.old - 1) 0 }
{
    told.fill(0);
    told[0] = place(r) as u64;
    number(r)
}
