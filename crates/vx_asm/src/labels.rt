//! The labels of a text, each with the number of the word that it stands before.
ghost use Rattle.std.specs.Prelude.{◌≡◌, ◌++◌, ◌∷◌, [], None, OnOk, IfErr};
ghost use Rattle.asm_text.specs.AsmTexts.{place_of};
ghost use Rattle.asm_text.specs.declared.statements.AsmFault.TheVariants as fault;

use asm_text::AsmFault;
use indexmap::IndexMap;
use std::alloc::Global;
use std::marker::Model;

/// Labels in the order of the text: contracts see a list of names and numbers of words.
#[derive(Drop)]
pub struct Labels<'a> {
    places: IndexMap<&'a [u8], u32>,
}

impl<'a> Model for Labels<'a> {
    ghost use Rattle.vx_asm.specs.Labels.{Labels, labels_in};

    ghost Value = { Labels };

    ghost view = { λ l. labels_in l.places.entries };
}

impl<'a> Labels<'a> {
    /// No labels.
    pub fn new(alloc: Global) -> Labels<'a>
        ensures { result ≡ [] }
    {
        Labels {
            places: IndexMap::new(alloc),
        }
    }

    /// The number of the word that a label stands before, if there is such a label.
    #[tactic(auto, using(crate::proofs::LabelLaws::place_is_looked_up))]
    pub fn place_of(&self, name: &[u8]) -> Option<u32>
        ensures { result ≡ place_of name.now self.now }
    {
        self.places.get(name).copied()
    }

    /// Puts a label behind the others.
    #[tactic(auto)]
    pub fn add(&mut self, name: &'a [u8], word: u32) -> Result<(), AsmFault>
        requires { place_of name.now self.old ≡ None }
        ensures added { OnOk result (self.new ≡ self.old ++ (name.now, word) ∷ []) }
        ensures fault { IfErr result (λ f. f ≡ fault.Memory) }
    {
        self.places.insert(name, word)?;
        Ok(())
    }
}
