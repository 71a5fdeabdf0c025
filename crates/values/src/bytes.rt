// The bytes of a witness.
ghost use Rattle.std.specs.Prelude.{◌≡◌};
ghost use Rattle.values.specs.Values.{length_of};

use problem::shown::Shown;

// One byte comes before the latches' bytes.
pub const LATCHES_AT: usize = 1;

// How many bytes a witness has. Of all sizes of four bytes only the largest make 2^64 of it: past the limits it may wrap.
#[tactic(auto, unfolding(crate::specs::Values::length_of))]
pub fn witness_length(p: &Shown) -> usize
    ensures { result ≡ length_of p.now }
{
    let inputs = (p.inputs() as usize) * (p.bound() as usize + 1);
    LATCHES_AT.wrapping_add((p.latches() as usize) + inputs)
}
