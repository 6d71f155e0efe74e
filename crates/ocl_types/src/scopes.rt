//! The scopes of a function, each a table of names in order of declaration.
ghost use Rattle.std.specs.Prelude.{◌≡◌, ◌∷◌, ◌++◌, [], None, OnOk, reverse};
ghost use Rattle.ocl_types.specs.Names.{entry_named, binding_named};
ghost use Rattle.ocl_types.specs.Stmts.{innermost, outer_scopes};

use crate::names::Binding;
use indexmap::IndexMap;
use std::alloc::{AllocFailed, Global};
use std::marker::Model;

/// The names of one scope.
#[derive(Drop)]
pub struct NameTable<'a> {
    names: IndexMap<&'a [u8], Binding>,
}

impl<'a> Model for NameTable<'a> {
    ghost use Rattle.ocl_types.specs.Names.{Scope};
    ghost use Rattle.ocl_types.specs.Tables.{scope_of};

    ghost Value = { Scope };

    ghost view = { λ t. scope_of t.names.entries };
}

impl<'a> NameTable<'a> {
    /// No names.
    pub fn new(alloc: Global) -> NameTable<'a>
        ensures { result ≡ [] }
    {
        NameTable {
            names: IndexMap::new(alloc),
        }
    }

    /// What a name stands for.
    #[tactic(auto, using(crate::proofs::TableLaws::entry_is_looked_up))]
    pub fn find(&self, name: &[u8]) -> Option<Binding>
        ensures { result ≡ entry_named name.now self.now }
    {
        self.names.get(name).copied()
    }

    /// Puts a name behind the others.
    pub fn add(
        &mut self,
        name: &'a [u8],
        binding: Binding,
    ) -> Result<(), AllocFailed<(&'a [u8], Binding)>>
        requires { entry_named name.now self.old ≡ None }
        ensures { OnOk result (self.new ≡ self.old ++ (name.now, binding) ∷ []) }
    {
        self.names.insert(name, binding)?;
        Ok(())
    }
}

/// The scopes of a function, the outermost first; contracts list the innermost first.
#[derive(Drop)]
pub struct Scopes<'a> {
    tables: Vec<NameTable<'a>>,
}

impl<'a> Model for Scopes<'a> {
    ghost use Rattle.std.specs.Prelude.{List, reverse};
    ghost use Rattle.ocl_types.specs.Names.{Scope};

    ghost Value = { List Scope };

    ghost view = { λ s. reverse s.tables.items };
}

impl<'a> Scopes<'a> {
    /// No scopes.
    pub fn new(alloc: Global) -> Scopes<'a>
        ensures { result ≡ [] }
    {
        Scopes {
            tables: Vec::new(alloc),
        }
    }

    /// Opens a scope with some names.
    #[tactic(auto, using(crate::proofs::ScopeLaws::scope_opens))]
    pub fn open(&mut self, table: NameTable<'a>) -> Result<(), AllocFailed<NameTable<'a>>>
        ensures { OnOk result (self.new ≡ table.entry ∷ self.old) }
    {
        self.tables.push(table)?;
        Ok(())
    }

    /// Closes the innermost scope and gives its names; none where there is no scope.
    #[tactic(auto, using(crate::proofs::ScopeLaws::scope_closes, crate::proofs::ScopeLaws::scope_is_taken, crate::proofs::ScopeLaws::none_closes, crate::proofs::ScopeLaws::none_is_taken))]
    pub fn take_innermost(&mut self, alloc: Global) -> NameTable<'a>
        ensures table { result ≡ innermost self.old }
        ensures outer { self.new ≡ outer_scopes self.old }
    {
        match self.tables.pop() {
            Some(table) => table,
            None => NameTable::new(alloc),
        }
    }

    /// Closes the innermost scope, if there is one.
    #[tactic(auto, using(crate::proofs::ScopeLaws::scope_closes, crate::proofs::ScopeLaws::none_closes))]
    pub fn close(&mut self)
        ensures { self.new ≡ outer_scopes self.old }
    {
        let _table = self.tables.pop();
    }

    /// What a name stands for, the innermost scope first.
    pub fn find(&self, name: &[u8]) -> Option<Binding>
        ensures { result ≡ binding_named name.now self.now }
    {
        innermost_binding(self.tables.as_slice(), name)
    }
}

/// What a name stands for in the last table that has it.
fn innermost_binding(tables: &[NameTable<'_>], name: &[u8]) -> Option<Binding>
    ensures { result ≡ binding_named name.now (reverse tables.now) }
{
    let mut found = None;
    for table in tables {
        if let Some(binding) = table.find(name) {
            found = Some(binding);
        }
    }
    found
}
