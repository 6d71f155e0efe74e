ghost use Rattle.std.specs.Prelude.{◌≡◌, ◌≢◌, ◌<◌, ◌≤◌, Err, length, IfOk};
ghost use Rattle.vx_world.specs.Counts.{next_count};
ghost use Rattle.vx_world.specs.Writing.{AppendsTaken, CountsWriteFaults};

use crate::writing::{Out, OutFault};
use std::io::Write;

/// A sink over any writer. A write that takes no byte counts as a fault, as a write that fails does.
#[derive(Debug, Drop)]
pub struct StreamOut<W> {
    /// The writer.
    pub sink: W,
    /// How many writes have failed, which stands still at its end.
    pub faults: u64,
}

impl<W> StreamOut<W> {
    /// A sink over this writer, to which no write has been made.
    pub fn new(sink: W) -> StreamOut<W>
        ensures sink { result.sink ≡ sink }
        ensures faults { result.faults ≡ 0 }
    {
        StreamOut { sink, faults: 0 }
    }
}

impl<W: Write> Out for StreamOut<W> {
    ghost written = { λ s. W.contents s.sink };

    ghost faults = { λ s. s.faults };

    fn write(&mut self, piece: &[u8]) -> Result<usize, OutFault>
        requires { 0 < length piece.now }
        ensures some { IfOk result (λ count. 1 ≤ count) }
        ensures within { IfOk result (λ count. count ≤ length piece.now) }
        ensures appends { AppendsTaken result piece.now (W.contents self.old.sink) (W.contents self.new.sink) }
        ensures faults { CountsWriteFaults result self.old.faults self.new.faults }
        ensures faults_never_fall { self.old.faults ≤ self.new.faults }
        ensures failed_once { result ≡ Err OutFault.Failed → self.new.faults ≡ next_count self.old.faults }
        ensures no_memory { result ≢ Err OutFault.Memory }
    {
        match self.sink.write(piece) {
            Ok(count) if count > 0 => Ok(count),
            _ => {
                self.faults = self.faults.saturating_add(1);
                Err(OutFault::Failed)
            }
        }
    }
}
