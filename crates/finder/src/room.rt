// The witness that was found, written into its room.
ghost use Rattle.std.specs.Prelude.{◌∷◌, map, ◌≡◌, ◌+◌, ◌≤◌, length, drop};
ghost use Rattle.std.proofs.Math.Seq.{paste};
ghost use Rattle.answers.specs.Lists.{written};
ghost use Rattle.meaning.specs.Witnesses.{witness_length};
ghost use Rattle.finder.specs.Runs.{run_bytes, byte_of};

use crate::run::{GIVEN, fill};
use crate::search::Best;
use problem::good::Problem;
use values::bytes::LATCHES_AT;
use values::rows::POSITIONS;

// Bits as bytes. One number goes through both lists, each from a place of its own: of `zip` it is not proved what the room holds afterwards.
fn put(bits: &[bool], from: usize, count: usize, room: &mut [u8], at: usize)
    requires { (from + count ≤ length bits.now) × (at + count ≤ length room.old) }
    ensures { room.new ≡ paste room.old at (map byte_of (drop from bits.now)) count }
{
    for i in 0..count {
        room[at + i] = u8::from(bits[from + i]);
    }
}

// The first byte, the first latches, and the inputs of each position.
#[tactic(auto, unfolding(answers::specs::Limits::bound_limit, answers::specs::Limits::inputs_limit, answers::specs::Limits::latches_limit))]
pub(crate) fn write(p: &Problem, best: Best, room: &mut [u8])
    requires { (best.first ≤ p.now.bound + 1) × (witness_length p.now ≤ length room.old) }
    ensures { room.new ≡ written (best.first ∷ run_bytes p.now best.run) room.old }
{
    let mut run = [[false; GIVEN]; POSITIONS];
    fill(p, best.run, &mut run);
    let inputs = p.inputs() as usize;
    let latches = p.latches() as usize;
    room[0] = best.first as u8;
    put(&run[0], inputs, latches, room, LATCHES_AT);
    for t in 0..=p.bound() as usize {
        put(&run[t], 0, inputs, room, LATCHES_AT + latches + inputs * t);
    }
}
