ghost use Rattle.std.specs.Prelude.{◌≡◌, ℕ, ◌≤◌, length, take, OnOk, OnErr};
ghost use Rattle.vx_world.specs.Writing.{Appends, CountsWriteFaults};
ghost use Rattle.vx_run.specs.Delivery.{AppendsSome, CountsDelivery};

use vx_world::{Out, OutFault};

/// Writes a text to a sink, whole or up to the fault that ends it. What a write has not taken begins the next one.
pub fn deliver<O: Out>(out: &mut O, text: &[u8]) -> Result<(), OutFault>
    ensures whole { OnOk result (Appends (O.written out.old) (O.written out.new) text.now) }
    ensures prefix { OnErr result (AppendsSome (O.written out.old) (O.written out.new) text.now) }
    ensures faults { CountsDelivery result (O.faults out.old) (O.faults out.new) }
{
    let mut at = 0;
    while at < text.len() {
        match out.write(&text[at..]) {
            Ok(count) => at += count,
            Err(fault) => return Err(fault),
        }
    }
    Ok(())
}
