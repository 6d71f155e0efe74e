//! Where the block of each operation begins.
ghost use Rattle.std.specs.Prelude.{◌≡◌, ◌+◌, ◌≤◌, ℕ, IfOk};
ghost use Rattle.vcode.specs.Shapes.{vops_of};
ghost use Rattle.vcode.specs.Words.{words};
ghost use Rattle.reg_alloc.specs.Layout.{word_of_place};
ghost use Rattle.reg_alloc.specs.Views.{AreNear, starts_in};

use crate::counting::op_words;
use crate::operations::op_at;
use std::alloc::{AllocError, Global};
use vcode::VOp;

/// The first words of the operations.
#[derive(Debug, Drop)]
pub struct Starts {
    /// The number of the first word of each operation.
    pub words: Vec<u32>,
    /// How many words there are.
    pub end: u32,
}

impl Starts {
    /// The first word of a place; a place behind the last operation is behind the last word.
    pub fn of(&self, place: u32) -> u32
        requires { AreNear self.now }
        ensures start { result ≡ starts_in self.now place }
        ensures near { result ≤ 65536 }
    {
        match self.words.get(place as usize) {
            Some(word) => *word,
            None => self.end,
        }
    }
}

/// Where the operations begin that come to at most 65,536 words.
pub fn find_starts(alloc: Global, ops: &[VOp]) -> Result<Starts, AllocError>
    requires low { words (vops_of ops.now) ≤ 65536 }
    ensures starts { IfOk result (λ starts. (q : ℕ) →
        starts_in starts q ≡ word_of_place (vops_of ops.now) q) }
{
    let mut list = Vec::new(alloc);
    let mut end = 0;
    for k in 0..ops.len() {
        list.push(end)?;
        end += op_words(op_at(ops, k));
    }
    Ok(Starts { words: list, end })
}
