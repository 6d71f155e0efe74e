ghost use Rattle.std.specs.Prelude.{◌≡◌, ℕ, ◌<◌, ◌≤◌, List, Option, length, IfOk};
ghost use Rattle.vx_world.specs.Writing.{AppendsTaken, CountsWriteFaults};

use thiserror::Error;

/// Why a write took no byte.
#[derive(Clone, Copy, Debug, PartialEq, Eq, Error)]
pub enum OutFault {
    /// The sink could not be written.
    #[error("the sink could not be written")]
    Failed,
    /// Memory ran out.
    #[error("memory ran out")]
    Memory,
}

/// A sink for bytes.
pub trait Out {
    /// All bytes that were taken, where the sink tells them.
    ghost written: { Self → Option (List ℕ) };

    /// How many writes have failed.
    ghost faults: { Self → ℕ };

    /// Takes the first bytes of a piece, at least one, and says how many.
    fn write(&mut self, piece: &[u8]) -> Result<usize, OutFault>
        requires { 0 < length piece.now }
        ensures some { IfOk result (λ count. 1 ≤ count) }
        ensures within { IfOk result (λ count. count ≤ length piece.now) }
        ensures appends { AppendsTaken result piece.now (written self.old) (written self.new) }

        // The count never falls, and a write fails only if it rose.
        ensures faults { CountsWriteFaults result (faults self.old) (faults self.new) }
        ensures faults_never_fall { faults self.old ≤ faults self.new };
}
