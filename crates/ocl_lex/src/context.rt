//! What is known at a line: the macros, and the conditions that stand open.
ghost use Rattle.std.specs.Prelude.{◌≡◌, Some, reverse, IfOk, OnOk};
ghost use Rattle.ocl_lex.specs.Doing.{Silently, state_of};
ghost use Rattle.ocl_lex.specs.Lines as spec;

use crate::conditions::Condition;
use crate::directives::{DirectiveWord, directive_named};
use crate::faults::LexFault;
use crate::macros::Macros;
use crate::operands::{is_name, name_alone, nothing_behind, opens_parameters, parts_of, unwanted};
use crate::parts::text_of;
use crate::pieces::Piece;
use crate::showing::skip_pieces;
use std::alloc::{AllocError, Global};

/// What is known at a line.
#[derive(Drop)]
pub struct Context {
    /// The macros.
    pub macros: Macros,
    /// The conditions that stand open, the innermost last.
    pub conditions: Vec<Condition>,
}

/// Whether the part of the text behind some conditions is read.
fn part_shown(conditions: &[Condition]) -> bool
    ensures { result ≡ spec.part_shown (reverse conditions.now) }
{
    match conditions.last() {
        Some(innermost) => innermost.shown,
        None => true,
    }
}

impl Context {
    /// What is known before the first line.
    pub fn new(alloc: Global) -> Result<Context, AllocError>
        ensures { IfOk result (λ context. state_of context ≡ spec.first_state) }
    {
        let macros = Macros::new(alloc)?;
        Ok(Context {
            macros,
            conditions: Vec::new(alloc),
        })
    }

    /// Whether the text is read here.
    pub fn is_shown(&self) -> bool
        ensures { result ≡ spec.part_shown (state_of self.now).conditions }
    {
        part_shown(self.conditions.as_slice())
    }

    fn define(
        &mut self,
        alloc: Global,
        text: &[u8],
        hash: Piece,
        pieces: &[Piece],
    ) -> Result<(), LexFault>
        ensures { Silently result (spec.define text.now hash pieces.now (state_of self.old)) (state_of self.new) }
    {
        let Some((name, rest)) = pieces.split_first() else {
            return Err(LexFault::BadDirective(hash.pos));
        };
        if !is_name(name.kind) {
            return Err(unwanted(hash, *name));
        }
        if opens_parameters(*name, rest) {
            return Err(LexFault::BadDirective(hash.pos));
        }
        let body = parts_of(alloc, text, rest)?;
        self.macros.define(alloc, text_of(text, *name), body)?;
        Ok(())
    }

    fn undef(&mut self, text: &[u8], hash: Piece, pieces: &[Piece]) -> Result<(), LexFault>
        ensures { Silently result (spec.undef text.now hash pieces.now (state_of self.old)) (state_of self.new) }
    {
        let name = name_alone(text, hash, pieces)?;
        self.macros.undefine(name);
        Ok(())
    }

    /// Opens a condition.
    fn begin(&mut self, hash: Piece, holds: bool) -> Result<(), AllocError>
        ensures { OnOk result (state_of self.new ≡ record { macros = (state_of self.old).macros; conditions = spec.condition hash holds (state_of self.old).conditions }) }
    {
        let shown = self.is_shown() && holds;
        self.conditions.push(Condition {
            pos: hash.pos,
            shown,
            switched: false,
        })?;
        Ok(())
    }

    fn ifdef(&mut self, text: &[u8], hash: Piece, pieces: &[Piece]) -> Result<(), LexFault>
        ensures { Silently result (spec.ifdef text.now hash pieces.now (state_of self.old)) (state_of self.new) }
    {
        let name = name_alone(text, hash, pieces)?;
        let holds = self.macros.replacement_of(name).is_some();
        self.begin(hash, holds)?;
        Ok(())
    }

    fn ifndef(&mut self, text: &[u8], hash: Piece, pieces: &[Piece]) -> Result<(), LexFault>
        ensures { Silently result (spec.ifndef text.now hash pieces.now (state_of self.old)) (state_of self.new) }
    {
        let name = name_alone(text, hash, pieces)?;
        let holds = self.macros.replacement_of(name).is_none();
        self.begin(hash, holds)?;
        Ok(())
    }

    /// Switches the innermost condition to its other part.
    fn switch(&mut self, hash: Piece, pieces: &[Piece]) -> Result<(), LexFault>
        ensures { Silently result (spec.switch hash pieces.now (state_of self.old).conditions (state_of self.old)) (state_of self.new) }
    {
        let Some(condition) = self.conditions.pop() else {
            return Err(LexFault::BadDirective(hash.pos));
        };
        if condition.switched {
            return Err(LexFault::BadDirective(hash.pos));
        }
        nothing_behind(hash, pieces)?;
        let shown = self.is_shown() && !condition.shown;
        self.conditions.push(Condition {
            pos: condition.pos,
            shown,
            switched: true,
        })?;
        Ok(())
    }

    /// Ends the innermost condition.
    fn endif(&mut self, hash: Piece, pieces: &[Piece]) -> Result<(), LexFault>
        ensures { Silently result (spec.endif hash pieces.now (state_of self.old).conditions (state_of self.old)) (state_of self.new) }
    {
        let Some(_condition) = self.conditions.pop() else {
            return Err(LexFault::BadDirective(hash.pos));
        };
        nothing_behind(hash, pieces)
    }

    /// Does what a directive says, by its word.
    fn obey(
        &mut self,
        alloc: Global,
        text: &[u8],
        hash: Piece,
        word: DirectiveWord,
        pieces: &[Piece],
    ) -> Result<(), LexFault>
        ensures { Silently result (spec.directive text.now hash (Some word) pieces.now (state_of self.old)) (state_of self.new) }
    {
        match word {
            DirectiveWord::Define if self.is_shown() => self.define(alloc, text, hash, pieces),
            DirectiveWord::Undef if self.is_shown() => self.undef(text, hash, pieces),
            DirectiveWord::Ifdef => self.ifdef(text, hash, pieces),
            DirectiveWord::Ifndef => self.ifndef(text, hash, pieces),
            DirectiveWord::Else => self.switch(hash, pieces),
            DirectiveWord::Endif => self.endif(hash, pieces),
            DirectiveWord::Define | DirectiveWord::Undef | DirectiveWord::Pragma => skip_pieces(
                pieces,
            ),
        }
    }

    /// Does what a line says behind its `#`.
    pub fn directive_line(
        &mut self,
        alloc: Global,
        text: &[u8],
        hash: Piece,
        pieces: &[Piece],
    ) -> Result<(), LexFault>
        ensures { Silently result (spec.directive_line text.now hash pieces.now (state_of self.old)) (state_of self.new) }
    {
        let Some((word, rest)) = pieces.split_first() else {
            return Ok(());
        };
        if !is_name(word.kind) {
            return Err(unwanted(hash, *word));
        }
        match directive_named(text_of(text, *word)) {
            Some(directive) => self.obey(alloc, text, hash, directive, rest),
            None => Err(LexFault::BadDirective(hash.pos)),
        }
    }
}
