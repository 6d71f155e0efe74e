//! What a function has so far, and where a statement stands.
ghost use Rattle.std.specs.Prelude.{◌≡◌, false, IfOk, IfErr};
ghost use Rattle.vx_base.specs.declared.types.Space.TheVariants as space;
ghost use Rattle.ocl_program.specs.declared.exprs.ArrayRef.TheVariants as array_of;
ghost use Rattle.ocl_types.specs.Answers.{StepsTo, standing_of};
ghost use Rattle.ocl_types.specs.Functions.{at_start};
ghost use Rattle.ocl_types.specs.Stmts.{declared, declared_variable, one_more};
ghost use Rattle.ocl_types.specs.declared.faults.TypeFault.TheVariants as fault;
ghost use Rattle.ocl_types.specs.declared.names.Binding.TheVariants as binding_of;

use crate::faults::TypeFault;
use crate::names::Binding;
use crate::scopes::{NameTable, Scopes};
use ocl_ast::{Gives, Ident};
use ocl_program::{ArrayRef, LocalArray};
use std::alloc::Global;
use vx_base::{Elem, Space};

/// Where a statement stands.
#[derive(Clone, Copy)]
pub struct Place {
    /// What its function gives.
    pub gives: Gives,
    /// Whether a loop is round it.
    pub in_loop: bool,
    /// Whether it is an item of the outermost block of a kernel.
    pub outermost: bool,
}

/// What a function has so far. Its variables and barriers are counted up to 2^32 - 1.
#[derive(Drop)]
pub struct Standing<'a> {
    /// The scopes that are open.
    pub scopes: Scopes<'a>,
    /// How many variables it has.
    pub variables: u32,
    /// How many barriers it has.
    pub sites: u32,
    /// Its `__local` arrays.
    pub arrays: Vec<LocalArray>,
    /// The callees of its calls of helpers.
    pub calls: Vec<u32>,
}

/// One more, up to 2^32 - 1.
pub fn next_number(n: u32) -> u32
    ensures { result ≡ one_more n }
{
    n.saturating_add(1)
}

impl<'a> Standing<'a> {
    /// A function that has nothing yet; its outermost scope is open.
    pub fn new(alloc: Global) -> Result<Standing<'a>, TypeFault>
        ensures start { IfOk result (λ st. standing_of st ≡ at_start) }
        ensures memory { IfErr result (λ f. f ≡ fault.Memory) }
    {
        let mut scopes = Scopes::new(alloc);
        scopes.open(NameTable::new(alloc))?;
        Ok(Standing {
            scopes,
            variables: 0,
            sites: 0,
            arrays: Vec::new(alloc),
            calls: Vec::new(alloc),
        })
    }

    /// Gives a name to the innermost scope.
    pub fn declare(
        &mut self,
        alloc: Global,
        name: &'a Ident,
        binding: Binding,
    ) -> Result<(), TypeFault>
        ensures { StepsTo result (standing_of self.new) (declared name.now binding (standing_of self.old)) }
    {
        let mut table = self.scopes.take_innermost(alloc);
        if table.find(name.text.as_slice()).is_some() {
            return Err(TypeFault::Twice(name.pos));
        }
        table.add(name.text.as_slice(), binding)?;
        self.scopes.open(table)?;
        Ok(())
    }

    /// Declares a variable, whose number is that of the variables so far.
    #[tactic(auto, using(crate::proofs::Steps::fault_onward, crate::proofs::Rules::steps_behind))]
    pub fn declare_variable(
        &mut self,
        alloc: Global,
        name: &'a Ident,
        elem: Elem,
        constant: bool,
    ) -> Result<(), TypeFault>
        ensures { StepsTo result (standing_of self.new) (declared_variable name.now (λ variable. binding_of.Scalar variable elem constant) (standing_of self.old)) }
    {
        let binding = Binding::Scalar {
            variable: self.variables,
            elem,
            constant,
        };
        self.declare(alloc, name, binding)?;
        self.variables = next_number(self.variables);
        Ok(())
    }

    /// Declares a `__local` array of a number, which counts as a variable.
    #[tactic(auto, using(crate::proofs::Steps::fault_onward, crate::proofs::Rules::steps_behind))]
    pub fn declare_array(
        &mut self,
        alloc: Global,
        name: &'a Ident,
        elem: Elem,
        array: u32,
    ) -> Result<(), TypeFault>
        ensures { StepsTo result (standing_of self.new) (declared_variable name.now (λ variable. binding_of.Array (array_of.Declared array) space.Local elem false) (standing_of self.old)) }
    {
        let binding = Binding::Array {
            array: ArrayRef::Declared(array),
            space: Space::Local,
            elem,
            readonly: false,
        };
        self.declare(alloc, name, binding)?;
        self.variables = next_number(self.variables);
        Ok(())
    }
}
