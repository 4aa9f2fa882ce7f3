// A judge's answer as numbers, as C has it.
#![tactic(auto)]

ghost use Rattle.std.specs.Prelude.{◌≡◌};
ghost use Rattle.verdict.specs.Verdict.{judged_code, judged_told};

use profile::Refusal;
use refusals::refuse;
use verdict::Judged;

// Returns the refusal's number, or 0; tells the place, the verdict, P and looks.
// Kept: C lends the numbers that are told, so a `From` could not fill them.
pub fn tell_judged(answer: Result<Judged, Refusal>, told: &mut [u64; 4]) -> u32
    ensures { (result ≡ judged_code answer) × (told.new ≡ judged_told answer) }
{
    match answer {
        Err(r) => refuse(r, told),
        Ok(Judged::NoOrder { prefixes, looks }) => {
            *told = [0, 0, prefixes as u64, looks];
            0
        }
        Ok(Judged::Order { prefixes, looks }) => {
            *told = [0, 1, prefixes as u64, looks];
            0
        }
    }
}
