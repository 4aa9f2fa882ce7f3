// The swaps of an order: document 02, Paper 10.
#![tactic(auto)]

ghost use Rattle.std.specs.Prelude.{◌≡◌, length, take};
ghost use Rattle.swaps.specs.Swaps.{swaps as swaps_of};
ghost use Rattle.stepcost.specs.StepCosts.{Placed};
ghost use Rattle.orderswaps.specs.Arranged.{Arranged};

use profile::Places;
use profile::limits::COUNT_NUMBERS;

// The swaps of an order of the log, whose counts are `whole`.
pub fn swaps(
    log: &[u8],
    whole: &[u32; COUNT_NUMBERS],
    k: usize,
    placed: &Places,
    order: &[u8],
) -> u32
    requires placed { Placed k log.now placed.now.starts.now placed.now.places.now }
    requires arranged { Arranged k log.now whole.now order.now }
    ensures { result ≡ swaps_of (λ a. a) log.now (take (length log.now) order.now) }
{
    let mut c = counts::none_counted();
    let mut sum = 0u32;
    for letter in &order[..log.len()] {
        let x = *letter as usize;
        let m = counts::numbers(c);
        let more = stepcost::step_cost(log, &m, whole, k, placed, x);
        sum = costcells::plus(sum, more);
        c = counts::one_more(c, x);
    }
    sum
}
