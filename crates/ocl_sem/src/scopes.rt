//! Active calls: where the variables, barriers and arrays of a function stand in the numbering of the kernel.
ghost use Rattle.std.specs.Prelude.{◌≡◌, IfOk, None, Some, map, MatchOption};
ghost use Rattle.ocl_program.specs.Nodes.{arg_nodes};
ghost use Rattle.ocl_program.specs.Shapes.{argument_node, function_node};
ghost use Rattle.ocl_sem.specs.Source.{array_in, callee_of, scope_at, site_in, site_of, variable_in};
ghost use Rattle.ocl_sem.specs.Views.{array_named, scope_of};

use ocl_program::{Argument, ArrayRef, CallSite, TypedFunction};
use std::alloc::{AllocError, Global};

/// An active call.
#[derive(Drop)]
pub struct Scope<'a> {
    /// The function that is called.
    pub function: &'a TypedFunction,
    /// Where its variables begin.
    pub variables: u32,
    /// Where its barriers begin.
    pub sites: u32,
    /// What its parameters name, of the arrays of the kernel.
    pub arrays: Vec<ArrayRef>,
}

/// A helper with the place of its call.
#[derive(Clone, Copy)]
pub struct Callee<'a> {
    /// The call.
    pub site: CallSite,
    /// The helper.
    pub function: &'a TypedFunction,
}

impl<'a> Scope<'a> {
    /// A variable's number in the kernel.
    pub fn variable(&self, variable: u32) -> u32
        ensures { result ≡ variable_in (scope_of self.now) variable }
    {
        self.variables.saturating_add(variable)
    }

    /// A barrier's number in the kernel.
    pub fn site(&self, site: u32) -> u32
        ensures { result ≡ site_in (scope_of self.now) site }
    {
        self.sites.saturating_add(site)
    }

    /// The array of the kernel that an array of the call is.
    pub fn array(&self, array: ArrayRef) -> ArrayRef
        ensures { result ≡ array_in (scope_of self.now) array }
    {
        match array {
            ArrayRef::Parameter(k) => self.arrays.get(k as usize).copied().unwrap_or(array),
            ArrayRef::Declared(_) => array,
        }
    }

    /// What a call leads to, where it leads to a function of the file.
    pub fn callee(&self, program: &'a [TypedFunction], call: u32) -> Option<Callee<'a>>
        ensures { MatchOption result (callee_of (map function_node program.now) (site_of (scope_of self.now) call) ≡ None)
            (λ found. (site_of (scope_of self.now) call ≡ Some found.site) × (callee_of (map function_node program.now) (Some found.site) ≡ Some (function_node found.function.now))) }
    {
        let Some(site) = self.function.calls.get(call as usize) else {
            return None;
        };
        let Some(function) = program.get(site.callee as usize) else {
            return None;
        };
        Some(Callee {
            site: *site,
            function,
        })
    }

    /// What an argument names of the arrays of the kernel; a number names none.
    fn named(&self, arg: &Argument) -> ArrayRef
        ensures { result ≡ array_named (scope_of self.now) (argument_node arg.now) }
    {
        match arg {
            Argument::Value(_) => ArrayRef::Parameter(0),
            Argument::Array(array) => self.array(*array),
        }
    }

    /// The arrays that arguments name.
    fn all_named(&self, alloc: Global, args: &[Argument]) -> Result<Vec<ArrayRef>, AllocError>
        ensures { IfOk result (λ arrays. arrays.items ≡ map (λ arg. array_named (scope_of self.now) (argument_node arg)) args.now) }
    {
        args.iter().map(|arg| self.named(arg)).collect(alloc)
    }

    /// The call of a helper in this call.
    #[tactic(auto, using(crate::proofs::Unfolding::arrays_each))]
    pub fn inner(
        &self,
        alloc: Global,
        callee: Callee<'a>,
        args: &[Argument],
    ) -> Result<Scope<'a>, AllocError>
        ensures { IfOk result (λ scope. scope_of scope ≡ scope_at (scope_of self.now) callee.entry.site (function_node callee.entry.function.now) (arg_nodes (map argument_node args.now))) }
    {
        let arrays = self.all_named(alloc, args)?;
        Ok(Scope {
            function: callee.function,
            variables: self.variables.saturating_add(callee.site.variables),
            sites: self.sites.saturating_add(callee.site.sites),
            arrays,
        })
    }
}
