// The call for a ceiling as C has it: Paper 11. `capi` exports it.
#![tactic(auto)]

ghost use Rattle.std.specs.Prelude.{◌≡◌};
ghost use Rattle.ceiling_calls.specs.CeilingCalls.{Bounding};

use refusals::refuse;

// A ceiling: returns the refusal's number, or 0; tells the place and the ceiling.
pub fn tell(k: usize, masks: &[u16], log: &[u8], groups: &[u16], told: &mut [u64; 2]) -> u32
    ensures { Bounding k masks.now log.now groups.now result told.new }
{
    match ceiling::bound(k, masks, log, groups) {
        Err(r) => refuse(r, told),
        Ok(n) => {
            let value = n as u64;
            *told = [0, value];
            0
        }
    }
}
