ghost use Rattle.std.specs.Prelude.{◌≡◌, IfOk};

use ocl_ast::Ident;
use std::alloc::Global;
use vx_base::{Memory, Pos, Text};

/// A name of a tree, with the text of its token.
pub fn ident(alloc: Global, text: &Text, pos: Pos) -> Result<Ident, Memory>
    ensures { IfOk result (λ n. n ≡ record { text = text.now; pos = pos }) }
{
    let items = text.as_slice().to_vec(alloc)?;
    let text = Text { items };
    Ok(Ident { text, pos })
}
