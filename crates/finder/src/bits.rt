// How many bytes of a candidate are open.
ghost use Rattle.std.specs.Prelude.{◌≡◌};
ghost use Rattle.finder.specs.Calls.{open_bytes};

use problem::good::Problem;
use problem::read::FREE;

// "free resets plus I(k+1)"
#[tactic(auto, unfolding(answers::specs::Limits::bound_limit, answers::specs::Limits::inputs_limit, answers::specs::Limits::latches_limit))]
pub(crate) fn open_bytes(p: &Problem) -> usize
    ensures { result ≡ open_bytes p.now }
{
    let mut bits = (p.inputs() as usize) * (p.bound() as usize + 1);
    for i in 0..p.latches() {
        if p.shown().latch_reset(i) == FREE {
            bits += 1;
        }
    }
    bits
}
