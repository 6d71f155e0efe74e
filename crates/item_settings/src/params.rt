//! Parameters once more.
ghost use Rattle.std.specs.Prelude.{◌≡◌, IfOk};

use ocl_ast::{Ident, Param, ParamList};
use std::alloc::Global;
use vx_base::{Memory, Text};

/// Parameters once more.
pub fn copied_params(alloc: Global, params: &[Param]) -> Result<ParamList, Memory>
    ensures { IfOk result (λ copy. copy ≡ params.now) }
{
    let mut items = Vec::new(alloc);
    for param in params {
        match copied_param(alloc, param) {
            Ok(copy) => match items.push(copy) {
                Ok(()) => {}
                Err(_full) => return Err(Memory),
            },
            Err(fault) => return Err(fault),
        }
    }
    Ok(ParamList { items })
}

/// A parameter once more.
fn copied_param(alloc: Global, param: &Param) -> Result<Param, Memory>
    ensures { IfOk result (λ copy. copy ≡ param.now) }
{
    let name = copied_name(alloc, &param.name)?;
    Ok(Param {
        name,
        kind: param.kind,
        constant: param.constant,
    })
}

/// A name once more.
fn copied_name(alloc: Global, name: &Ident) -> Result<Ident, Memory>
    ensures { IfOk result (λ copy. copy ≡ name.now) }
{
    let items = name.text.as_slice().to_vec(alloc)?;
    let text = Text { items };
    Ok(Ident {
        text,
        pos: name.pos,
    })
}
