//! Which variables of a kernel are uniform.
ghost use Rattle.std.specs.Prelude.{◌≤◌, ◌^◌, map};
ghost use Rattle.ocl_program.specs.Measures.{measured, own_depth};
ghost use Rattle.ocl_program.specs.Shapes.{function_node};
ghost use Rattle.structured.specs.Ready.{IsKernel};

use ocl_types::Program;
use std::alloc::Global;
use structured::structured;
use uniformity::uniform;
use vx_base::Memory;

/// The marks of the first variables of a kernel, as many as there are words in what is wanted: `u` for one that is uniform, and `d` for
/// another. The scalar parameters are the first variables, and those that the kernel declares are the next.
pub fn marks_text(
    alloc: Global,
    program: &Program,
    kernel: u32,
    wanted: &str,
) -> Result<String, Memory>
    requires kernel { IsKernel (map function_node program.now.functions.items) kernel }
    requires depth { measured own_depth (map function_node program.now.functions.items) kernel ≤ 2 ^ 31 }
{
    let code = structured(alloc, program, kernel)?;
    let marks = uniform(alloc, &code)?;
    let mut said = String::from_str(alloc, "marks")?;
    let mut variable = 0_u32;
    for _ in wanted.split_whitespace() {
        let mark = if marks.is_uniform(variable) {
            " u"
        } else {
            " d"
        };
        said.push_str(mark)?;
        variable = variable.saturating_add(1);
    }
    Ok(said)
}
