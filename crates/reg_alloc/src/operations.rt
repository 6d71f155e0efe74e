//! The operations of a kernel in order.
ghost use Rattle.std.specs.Prelude.{◌≡◌, ◌+◌, ◌<◌, ◌∷◌, drop, length};
ghost use Rattle.vcode.specs.Shapes.{vop_of, vops_of};

use vcode::VOp;

/// The operation at a place.
#[tactic(auto, using(crate::proofs::Starting::some_at))]
pub fn op_at(ops: &[VOp], place: usize) -> VOp
    requires { place < length ops.now }
    ensures { vops_of (drop place ops.now) ≡ vop_of result ∷ vops_of (drop (place + 1) ops.now) }
{
    ops[place]
}
