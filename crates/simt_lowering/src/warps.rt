//! What a warp does with its lanes, unless the test is uniform.
ghost use Rattle.std.specs.Prelude.{◌≡◌, ◌<◌, ◌^◌, OnOk};
ghost use Rattle.kir.specs.Shapes.{operand_of};
ghost use Rattle.vcode.specs.Shapes.{Puts};
ghost use Rattle.simt_lowering.specs.Lowered.{goes_on, joins, keeps_mask, past as past_of, splits};

use kir::Operand;
use std::alloc::AllocError;
use vcode::{Csr, VOp, put, put_learn};

/// The place behind an operation that is left out if the test is uniform.
pub fn past(uniform: bool, place: u32) -> u32
    requires { past_of uniform place < 2 ^ 32 }
    ensures { result ≡ past_of uniform place }
{
    if uniform { place } else { place + 1 }
}

/// The warp parts.
pub fn put_split(out: &mut Vec<VOp>, uniform: bool, test: Operand) -> Result<(), AllocError>
    ensures { OnOk result (Puts out.old.items out.new.items (splits uniform (operand_of test))) }
{
    if uniform {
        return Ok(());
    }
    put(out, VOp::Split { test })
}

/// It meets again.
pub fn put_join(out: &mut Vec<VOp>, uniform: bool) -> Result<(), AllocError>
    ensures { OnOk result (Puts out.old.items out.new.items (joins uniform)) }
{
    if uniform {
        return Ok(());
    }
    put(out, VOp::Join)
}

/// The lanes that are active are kept in a register.
pub fn put_kept_mask(out: &mut Vec<VOp>, uniform: bool, mask: u32) -> Result<(), AllocError>
    ensures { OnOk result (Puts out.old.items out.new.items (keeps_mask uniform mask)) }
{
    if uniform {
        return Ok(());
    }
    put_learn(out, mask, Csr::MaskNow)
}

/// Only lanes go on whose test is not 0, or those that were kept if there is none.
pub fn put_pred(
    out: &mut Vec<VOp>,
    uniform: bool,
    test: Operand,
    mask: u32,
) -> Result<(), AllocError>
    ensures { OnOk result (Puts out.old.items out.new.items
        (goes_on uniform (operand_of test) mask)) }
{
    if uniform {
        return Ok(());
    }
    put(out, VOp::Pred { test, mask })
}
