//! Loops that wait.
ghost use Rattle.std.specs.Prelude.{◌≡◌, IfOk};

use std::alloc::{AllocError, Global};
use std::marker::Model;

/// The parts of a loop.
#[derive(Debug, Drop)]
struct LoopParts<V, T> {
    test: Option<V>,
    step: T,
    body: T,
}

/// A loop: its test, which holds where none is written, what runs behind each turn, and the turn. Contracts see the three.
#[derive(Debug, Drop)]
pub struct Loop<V, T> {
    parts: Box<LoopParts<V, T>>,
}

impl<V, T> Model for Loop<V, T> {
    ghost use Rattle.task_machine.specs.Loops.{Loop as AnyLoop};

    ghost Value = { AnyLoop V T };

    ghost view = { λ l. record { test = l.parts.value.test; step = l.parts.value.step; body = l.parts.value.body } };
}

impl<V: Drop, T: Drop> Loop<V, T> {
    /// A loop of these parts.
    pub fn new(alloc: Global, test: Option<V>, step: T, body: T) -> Result<Loop<V, T>, AllocError>
        ensures { IfOk result (λ l. l ≡ record { test = test; step = step; body = body }) }
    {
        match Box::new(alloc, LoopParts { test, step, body }) {
            Ok(parts) => Ok(Loop { parts }),
            Err(_) => Err(AllocError),
        }
    }

    /// The test, where one is written.
    pub fn test(&self) -> &Option<V>
        ensures { result.now ≡ self.now.test }
    {
        &self.parts.test
    }

    /// What runs behind each turn.
    pub fn step(&self) -> &T
        ensures { result.now ≡ self.now.step }
    {
        &self.parts.step
    }

    /// The turn.
    pub fn body(&self) -> &T
        ensures { result.now ≡ self.now.body }
    {
        &self.parts.body
    }
}
