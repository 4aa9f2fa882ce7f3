// The answer for a visible part: the judge with a profile whose moves have the hidden letters in them, then hidden letters behind each forward set.
#![tactic(auto)]

ghost use Rattle.std.specs.Prelude.{Ok, ◌≡◌, ◌≤◌, length};
ghost use Rattle.std.proofs.Math.Option.{some};
ghost use Rattle.profile.specs.Automata.{lent, automaton};
ghost use Rattle.verdict.proofs.Promises.{told_prefixes};
ghost use Rattle.views.specs.Views.{view as view_of};
ghost use Rattle.cleared.specs.Cleared.{Clean, answer, order_left, table_left};
ghost use Rattle.seeing.specs.Seeing.{hulled_left};

use profile::limits::{MOST_MOVES, MOST_STATES};
use profile::{Profile, Refusal, Shape};
use verdict::Judged;

// P of a verdict.
fn prefixes_of(judged: Judged) -> usize
    ensures { told_prefixes (Ok judged) ≡ some result }
{
    match judged {
        Judged::NoOrder { prefixes, looks: _ } => prefixes,
        Judged::Order { prefixes, looks: _ } => prefixes,
    }
}

// The answer for a visible part, by a profile that has the hidden letters in its moves; `reach` has what hidden letters reach from each state.
fn view_late(
    profile: &Profile,
    log: &[u8],
    reach: &[u32],
    order: &mut [u8],
    work: &mut [u32],
) -> Result<Judged, Refusal>
    requires clean { Clean (lent profile.now) log.now }
    requires log_in_bounds { length log.now ≤ length order.old }
    ensures value { result ≡ answer (lent profile.now) (automaton (lent profile.now)) log.now (length order.old) (length work.old) }
    ensures order_after { order.new ≡ order_left (lent profile.now) (automaton (lent profile.now)) log.now (length work.old) order.old }
    ensures work_after { work.new ≡ hulled_left (lent profile.now) reach.now log.now (length order.old) work.old }
{
    let s = profile.shape.s;
    let judged = cleared::judge_cleared(profile, log, order, work)?;
    let prefixes = prefixes_of(judged);
    hulls::put_hulls(work, prefixes, s, reach);
    Ok(judged)
}

// The answer for a visible part.
pub fn view_seen(
    profile: &Profile,
    visible: u32,
    log: &[u8],
    order: &mut [u8],
    work: &mut [u32],
) -> Result<Judged, Refusal>
    requires clean { Clean (lent profile.now) log.now }
    requires log_in_bounds { length log.now ≤ length order.old }
    ensures value { result ≡ answer (lent profile.now) (view_of (lent profile.now) visible) log.now (length order.old) (length work.old) }
    ensures order_after { order.new ≡ order_left (lent profile.now) (view_of (lent profile.now) visible) log.now (length work.old) order.old }
    ensures work_after { work.new ≡ table_left (lent profile.now) (view_of (lent profile.now) visible) log.now (length order.old) work.old }
{
    let shape = profile.shape;
    let k = shape.k;
    let s = shape.s;
    // Kept: arrays with place for the most states and moves, of which the first are used, since there is no heap.
    let mut reach = [0u32; MOST_STATES];
    hidden::put_reach(profile, visible, &mut reach);
    let mut late = [0u32; MOST_MOVES];
    hidden::put_moves(profile, &reach, &mut late);
    let finals = hidden::led_into(&reach, s, shape.finals);
    let inner = Shape {
        k: k,
        s: s,
        start: shape.start,
        finals: finals,
    };
    let end = s * k;
    view_late(
        &Profile {
            shape: inner,
            masks: profile.masks,
            moves: &late[0..end],
        },
        log,
        &reach,
        order,
        work,
    )
}
