//! The program of a file.
ghost use Rattle.std.specs.Prelude.{◌≡◌, ◌<◌, ◌^◌, ◌&&◌, IfSome, Some, length, map, option_map, slice_get};
ghost use Rattle.std.specs.Str.{bytes_eq};
ghost use Rattle.ocl_program.specs.Measures.{measures_of};
ghost use Rattle.ocl_program.specs.Shapes.{function_node};
ghost use Rattle.ocl_measures.specs.Totals.{AreTotals};
ghost use Rattle.ocl_types.specs.Functions.{IsProgram, kernel_from};

use ocl_ast::ParamList;
use ocl_measures::sizes::Totals;
use ocl_measures::totals::totals_at;
use ocl_program::{Measures, TypedFunction};

/// A file whose names are resolved and whose types are known, and which is within the limits.
#[derive(Drop)]
pub struct Program {
    /// Its functions in order.
    pub functions: Vec<TypedFunction>,
    /// How large each is with its calls expanded.
    pub totals: Vec<Totals>,
    ghost few: { length functions.items < 2 ^ 32 },
    ghost measured: { AreTotals (map function_node functions.items) (length functions.items) totals.items },
    ghost typed: { ∥ IsProgram (map function_node functions.items) ∥₁ },
}

/// Whether a function is a kernel with a name.
fn is_kernel_named(function: &TypedFunction, name: &[u8]) -> bool
    ensures { result ≡ function.now.kernel && bytes_eq name.now function.now.name.text }
{
    if !function.kernel {
        return false;
    }
    name == function.name.text.as_slice()
}

impl Program {
    /// The number of the kernel with a name, and None exactly where there is none.
    #[tactic(auto, using(crate::proofs::Filing::kernel_here, crate::proofs::Filing::no_kernel_here, crate::proofs::Filing::no_kernel_left))]
    pub fn find(&self, name: &[u8]) -> Option<u32>
        ensures kernel { result ≡ kernel_from 0 name.now (map function_node self.now.functions.items) }
        ensures within { IfSome result (λ k. k < length self.now.functions.items) }
    {
        for (number, function) in self.functions.iter().enumerate() {
            if is_kernel_named(function, name) {
                return Some(number as u32);
            }
        }
        None
    }

    /// The parameters of a kernel.
    pub fn params(&self, kernel: u32) -> &ParamList
        requires { kernel < length self.now.functions.items }
        ensures { option_map (λ (f : TypedFunction). f.params) (slice_get self.now.functions.items kernel) ≡ Some result.now }
    {
        &self.functions[kernel as usize].params
    }

    /// How large a kernel is with its calls expanded. Each number is cut at 2^32 - 1.
    pub fn measures(&self, kernel: u32) -> Measures
        requires { kernel < length self.now.functions.items }
        ensures { result ≡ measures_of (map function_node self.now.functions.items) kernel }
    {
        let totals = totals_at(self.totals.as_slice(), kernel);
        Measures {
            variables: totals.variables,
            nodes: totals.size.nodes,
            depth: totals.size.depth,
            control: totals.size.control,
            calls: totals.calls,
        }
    }
}
