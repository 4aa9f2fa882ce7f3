// The commutation relation that the masks give.
#![tactic(auto)]

ghost use Rattle.std.specs.Prelude.{◌≡◌};
ghost use Rattle.profile.specs.Traces.{independent as independent_by};

// Letter i directly followed by j may become j followed by i: bit j of mask i is set. What the masks do not have is not set.
pub fn independent(masks: &[u16], i: usize, j: usize) -> bool
    ensures { result ≡ independent_by masks.now i j }
{
    if masks.len() <= i {
        return false;
    }
    let mask = masks[i];
    if 16 <= j {
        return false;
    }
    (mask >> j) & 1 == 1
}
