//! The macros that are known at a line.
ghost use Rattle.std.specs.Prelude.{◌≡◌, [], IfOk, OnOk};
ghost use Rattle.std.specs.Option.{option_copied};
ghost use Rattle.ocl_lex.specs.Macros as spec;

use crate::parts::Lexeme;
use crate::predefined::{ALL, Predefined, predefined_body, predefined_name};
use indexmap::IndexMap;
use std::alloc::{AllocError, Global};
use std::marker::Model;

/// Names with their replacements, in order of declaration, where none was taken out.
#[derive(Drop)]
pub struct Macros {
    table: IndexMap<Vec<u8>, Vec<Lexeme>>,
}

impl Model for Macros {
    ghost use Rattle.ocl_lex.specs.Macros.{Macros as Table};
    ghost use Rattle.ocl_lex.specs.Tables.{table_of};

    ghost Value = { Table };

    ghost view = { λ m. table_of m.table.entries };
}

impl Macros {
    /// No macros.
    fn empty(alloc: Global) -> Macros
        ensures { result ≡ [] }
    {
        Macros {
            table: IndexMap::new(alloc),
        }
    }

    /// The replacement of a name that is a macro.
    pub fn replacement_of(&self, name: &[u8]) -> Option<&[Lexeme]>
        ensures { option_copied result ≡ spec.replacement_of name.now self.now }
    {
        match self.table.get(name) {
            Some(body) => Some(body.as_slice()),
            None => None,
        }
    }

    /// Makes a name a macro, or gives it another replacement.
    pub fn define(
        &mut self,
        alloc: Global,
        name: &[u8],
        body: Vec<Lexeme>,
    ) -> Result<(), AllocError>
        ensures { OnOk result (self.new ≡ spec.defined name.now body.items self.old) }
    {
        let name = Vec::from_slice(alloc, name)?;
        self.table.insert(name, body)?;
        Ok(())
    }

    /// Makes a name no macro.
    pub fn undefine(&mut self, name: &[u8])
        ensures { self.new ≡ spec.undefined name.now self.old }
    {
        let _earlier = self.table.swap_remove(name);
    }

    fn define_predefined(&mut self, alloc: Global, predefined: Predefined) -> Result<(), AllocError>
        ensures { OnOk result (self.new ≡ spec.with_predefined self.old predefined) }
    {
        let body = predefined_body(alloc, predefined)?;
        self.define(alloc, predefined_name(predefined), body)
    }

    /// The macros that are there from the start.
    pub fn new(alloc: Global) -> Result<Macros, AllocError>
        ensures { IfOk result (λ macros. macros ≡ spec.predefined_macros) }
    {
        let mut macros = Macros::empty(alloc);
        for predefined in ALL {
            macros.define_predefined(alloc, predefined)?;
        }
        Ok(macros)
    }
}
