//! The functions of a file by name.
ghost use Rattle.std.specs.Prelude.{◌≡◌, ℕ, List, ◌<◌, ◌^◌, ◌||◌, is_some, length, slice_get, option_map};
ghost use Rattle.std.specs.Borrow.{Bor};
ghost use Rattle.std.specs.Map.{lookup};
ghost use Rattle.std.specs.Str.{bytes_eq};
ghost use Rattle.std.specs.Option.{option_copied};
ghost use Rattle.ocl_ast.specs.Shapes.{function_tree};
ghost use Rattle.ocl_types.specs.Answers.{NamesTo};
ghost use Rattle.ocl_types.specs.Names.{builtin_named as builtin_named_of, function_from, meaning_of as meaning_in};
ghost use Rattle.ocl_types.specs.Tables.{NumbersOf, trees_of};

use crate::builtins::builtin_named;
use crate::faults::TypeFault;
use crate::names::Meaning;
use crate::scopes::Scopes;
use indexmap::IndexMap;
use ocl_ast::Function;
use std::alloc::Global;

/// The functions of a file, with their numbers by name. Where several have one name, it stands for the first.
#[derive(Drop)]
pub struct Functions<'a> {
    /// The functions in order.
    pub functions: &'a [Function],
    /// Their numbers by name.
    pub numbers: IndexMap<&'a [u8], u32>,
}

impl<'a> Functions<'a> {
    /// The functions of a file, whose names differ from each other and from those of the built-in functions.
    #[tactic(auto, using(crate::proofs::NameLaws::number_added, crate::proofs::NameLaws::none_numbered, crate::proofs::NameLaws::one_name_more, crate::proofs::NameLaws::name_twice))]
    pub fn new(alloc: Global, functions: &'a [Function]) -> Result<Functions<'a>, TypeFault>
        requires { length functions.now < 2 ^ 32 }
        ensures { NamesTo result functions.now }
    {
        let mut numbers = IndexMap::new(alloc);
        for (number, function) in functions.iter().enumerate() {
            let name = function.name.text.as_slice();
            if is_taken(&numbers, name) {
                return Err(TypeFault::Twice(function.name.pos));
            }
            match numbers.insert(name, number as u32) {
                Ok(_before) => {}
                Err(_full) => return Err(TypeFault::Memory),
            }
        }
        Ok(Functions { functions, numbers })
    }

    /// The number of the function with a name.
    pub fn find(&self, name: &[u8]) -> Option<u32>
        requires { NumbersOf self.now.numbers.entries (trees_of self.now.functions.now) }
        ensures { result ≡ function_from 0 name.now (trees_of self.now.functions.now) }
    {
        self.numbers.get(name).copied()
    }

    /// The function of a number.
    #[tactic(auto, using(crate::proofs::TableLaws::function_at))]
    pub fn at(&self, number: u32) -> Option<&'a Function>
        ensures { option_map function_tree (option_copied result) ≡ slice_get (trees_of self.now.functions.now) number }
    {
        self.functions.get(number as usize)
    }
}

/// Whether a function has a name, or a built-in function.
fn is_taken(numbers: &IndexMap<&[u8], u32>, name: &[u8]) -> bool
    ensures { result ≡ is_some (lookup (λ (k : Bor (List ℕ)). bytes_eq name.now k.now) numbers.now.entries) || is_some (builtin_named_of name.now) }
{
    if numbers.get(name).is_some() {
        return true;
    }
    builtin_named(name).is_some()
}

/// What a name stands for: a name of a scope hides a function, and a function hides a built-in function.
pub fn meaning_of(functions: &Functions<'_>, scopes: &Scopes<'_>, name: &[u8]) -> Meaning
    requires { NumbersOf functions.now.numbers.entries (trees_of functions.now.functions.now) }
    ensures { result ≡ meaning_in (trees_of functions.now.functions.now) scopes.now name.now }
{
    if let Some(binding) = scopes.find(name) {
        return Meaning::Bound(binding);
    }
    if let Some(number) = functions.find(name) {
        return Meaning::Function(number);
    }
    match builtin_named(name) {
        Some(which) => Meaning::Builtin(which),
        None => Meaning::Unknown,
    }
}
