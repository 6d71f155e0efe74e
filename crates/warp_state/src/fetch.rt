ghost use Rattle.std.specs.Prelude.{◌≡◌};
ghost use Rattle.vx_isa.specs.WarpSteps.{decoded, fetched, word_at};

use rv_encode::decode;
use vx_isa::{Instr, MachineTrap};

/// The address of the first word of the code.
const CODE_START: u32 = 0x8000_0000;

/// The instruction at an address.
#[tactic(auto, unfolding(vx_isa::specs::WarpSteps::fetched))]
pub fn fetch(code: &[u32], pc: u32) -> Result<Instr, MachineTrap>
    ensures { result ≡ fetched code.now pc }
{
    match word_at(code, pc) {
        Some(word) => decode(word).ok_or(MachineTrap::Illegal),
        None => Err(MachineTrap::Bus),
    }
}

/// The word at an address.
fn word_at(code: &[u32], pc: u32) -> Option<u32>
    ensures { result ≡ word_at code.now pc }
{
    if pc >= CODE_START && pc % 4 == 0 {
        code.get(((pc - CODE_START) / 4) as usize).copied()
    } else {
        None
    }
}
