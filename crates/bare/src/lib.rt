// The work table of a judge for grammars: document 02, Paper 13, "forward and backward are 0 here".
#![tactic(auto)]

ghost use Rattle.std.specs.Prelude.{◌≡◌};
ghost use Rattle.std.proofs.Math.Option.{none};
ghost use Rattle.profile.specs.Refusals.{log_refusals, lowest, relation_refusals};
ghost use Rattle.bare.specs.Bare.{BuiltIs};

use profile::limits::{COUNT_NUMBERS, MOST_LETTERS};
use profile::{Profile, Refusal, Shape};
use table::Filled;

// The table of prefixes with forward and backward 0: that of a profile with one state, no moves and no final state, and 0 for the start.
pub fn build(k: usize, masks: &[u16], log: &[u8], work: &mut [u32]) -> Result<Filled, Refusal>
    requires { (lowest (relation_refusals k masks.now) ≡ none) × (lowest (log_refusals k log.now) ≡ none) }
    ensures { BuiltIs k masks.now log.now work.old work.new result }
{
    let moves = [0u32; MOST_LETTERS];
    let shape = Shape {
        k: k,
        s: 1,
        start: 0,
        finals: 0,
    };
    let filled = table::build(
        &Profile {
            shape,
            masks,
            moves: &moves[0..k],
        },
        log,
        work,
    )?;
    work[COUNT_NUMBERS] = 0;
    Ok(filled)
}
