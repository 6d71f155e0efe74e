//! A lane alone.
ghost use Rattle.std.specs.Prelude.{◌≡◌, ◌==◌, ◌<◌, ◌+◌, ◌-◌, ◌^◌, ◌∷◌, [], drop, length, IfOk, OnOk, if◌then◌else◌};
ghost use Rattle.kir.specs.Machine.{value as value_of};
ghost use Rattle.kir.specs.Shapes.{operand_of};
ghost use Rattle.step_machine.specs.Stacks.{top, under};
ghost use Rattle.step_machine.specs.Steps.{shown};
ghost use Rattle.step_machine.specs.Turns.{EachBelow};
ghost use Rattle.vx_isa.specs.Warps.{has_lane as has_lane_of};
ghost use Rattle.vcode.specs.Code as tree;
ghost use Rattle.vcode.specs.Machine.{lane_start, learned, step as step_of_lane, unlearned};
ghost use Rattle.vcode.specs.Shapes.{vop_of, vops_of};
ghost use Rattle.vcode.specs.Views.{accessed, computed, lane_of, led, registers_of, set_to, stepped, told_value, waiting, with_numbers};

use crate::ops::{Csr, VOp};
use item_acts::{Action, Place, Point};
use item_settings::{Variables, low_bytes, size_of_elem};
use kir::Operand;
use std::alloc::{AllocError, Global};
use step_machine::{Found, Stack, Turns, enter_turns, leave_turns, raise};
use vx_base::{Elem, alu_value, fit};

/// What stands around a lane.
pub trait Surroundings {
    ghost use Rattle.std.specs.Prelude.{◌≡◌, ◌<◌};
    ghost use Rattle.vcode.specs.Machine.{Around};

    ghost around: { Self → Around };

    /// A word of its launch block.
    fn word(&self, number: u64) -> u32
        ensures { result ≡ (around self.now).block number };

    /// The number of its warp in the core.
    fn warp(&self) -> u32
        ensures { result ≡ (around self.now).warp };

    /// Its number in the warp, which has 32 lanes at most.
    fn number(&self) -> u32
        ensures number { result ≡ (around self.now).number }
        ensures few { result < 32 };

    /// The byte of an array that an address names.
    fn place(&self, address: u32) -> Place
        ensures { result ≡ (around self.now).place address };
}

/// A lane.
#[derive(Drop)]
pub struct Lane<'a> {
    /// The place of its next operation.
    pub place: usize,
    /// Its registers.
    pub registers: Variables,
    /// The numbers of turns of the loops that it is in.
    pub turns: Turns,
    /// What the control registers of the core and of the mask answer it from now on.
    pub numbers: &'a [u32],
}

/// What becomes of an answer.
#[derive(Clone, Copy, Debug, PartialEq, Eq)]
pub struct Target {
    /// The register whose value it is.
    pub register: u32,
    /// The type to which it is cut.
    pub elem: Elem,
}

impl<'a> Lane<'a> {
    /// A lane before its first operation.
    pub fn start(alloc: Global, numbers: &'a [u32]) -> Lane<'a>
        ensures start { lane_of result ≡ lane_start numbers.now }
        ensures fresh { result.turns ≡ [] }
    {
        Lane {
            place: 0,
            registers: Variables {
                items: Vec::new(alloc),
            },
            turns: Stack::new(alloc),
            numbers,
        }
    }

    /// The value of an operand.
    fn value(&self, operand: Operand) -> u32
        ensures { result ≡ value_of (registers_of self.now) (operand_of operand) }
    {
        match operand {
            Operand::Variable(register) => self.registers.get(register),
            Operand::Number(n) => n,
        }
    }

    /// The next of the numbers, which is 0 behind the last.
    fn next_number(&mut self) -> u32
        ensures number { result ≡ top self.old.numbers.now }
        ensures rest { lane_of self.new
            ≡ with_numbers (under self.old.numbers.now) (lane_of self.old) }
    {
        match self.numbers {
            [] => 0,
            [first, rest @ ..] => {
                self.numbers = rest;
                *first
            }
        }
    }

    /// What a control register answers.
    fn learn<A: Surroundings>(&mut self, at: &A, csr: Csr) -> u32
        ensures number { result ≡ learned (A.around at.now) csr self.old.numbers.now }
        ensures rest { lane_of self.new
            ≡ with_numbers (unlearned csr self.old.numbers.now) (lane_of self.old) }
    {
        match csr {
            Csr::LaneNumber => at.number(),
            Csr::WarpNumber => at.warp(),
            Csr::CoreNumber | Csr::MaskNow => self.next_number(),
        }
    }

    /// A value into a register, and on to the next place.
    fn set(&mut self, register: u32, value: u32) -> Result<(), AllocError>
        requires { self.now.place < 2 ^ 64 - 1 }
        ensures { OnOk result (lane_of self.new ≡ set_to register value (lane_of self.old)) }
    {
        self.registers.put(register, value)?;
        self.place += 1;
        Ok(())
    }

    /// An operation that computes the value of a register.
    fn compute<A: Surroundings>(&mut self, at: &A, op: VOp) -> Result<(), AllocError>
        requires { self.now.place < 2 ^ 64 - 1 }
        ensures { OnOk result (lane_of self.new
            ≡ computed (A.around at.now) (vop_of op) (lane_of self.old)) }
    {
        match op {
            VOp::Copy { register, value } => self.set(register, self.value(value)),
            VOp::Compute {
                register,
                op,
                left,
                right,
            } => {
                let value = alu_value(op, self.value(left), self.value(right));
                self.set(register, value)
            }
            VOp::Cut {
                register,
                elem,
                value,
            } => self.set(register, fit(elem, self.value(value))),
            VOp::Word { register, word } => self.set(register, at.word(word as u64)),
            VOp::WordAt {
                register,
                index,
                word,
            } => {
                let number = word as u64 + self.value(index) as u64;
                self.set(register, at.word(number))
            }
            VOp::Learn { register, csr } => {
                let value = self.learn(at, csr);
                self.set(register, value)
            }
            _ => Ok(()),
        }
    }

    /// An operation that leads to a place, or enters a loop or leaves it.
    fn lead(&mut self, op: VOp) -> Result<(), AllocError>
        requires place { self.now.place < 2 ^ 64 - 1 }
        requires below { EachBelow (2 ^ 64 - 1) self.now.turns }
        ensures { OnOk result (lane_of self.new ≡ led (vop_of op) (lane_of self.old)) }
    {
        let next = self.place + 1;
        match op {
            VOp::IfZero { test, place } => {
                self.place = self.chosen(test, place as usize, next);
                Ok(())
            }
            VOp::IfNot { test, place } => {
                self.place = self.chosen(test, next, place as usize);
                Ok(())
            }
            VOp::Goto { place } => {
                self.place = place as usize;
                Ok(())
            }
            VOp::Enter => self.enter(),
            VOp::Leaves { test, place } => {
                self.leave(test, place);
                Ok(())
            }
            VOp::Again { place } => self.again(place),
            _ => Ok(()),
        }
    }

    /// The first of two places if an operand is 0, else the second.
    fn chosen(&self, test: Operand, first: usize, second: usize) -> usize
        ensures { result ≡ (if value_of (registers_of self.now) (operand_of test) == 0 then first
            else second) }
    {
        if self.value(test) == 0 { first } else { second }
    }

    /// A loop is entered.
    fn enter(&mut self) -> Result<(), AllocError>
        requires place { self.now.place < 2 ^ 64 - 1 }
        ensures { OnOk result (lane_of self.new ≡ led tree.Enter (lane_of self.old)) }
    {
        enter_turns(&mut self.turns)?;
        self.place += 1;
        Ok(())
    }

    /// The test of a loop.
    fn leave(&mut self, test: Operand, place: u32)
        requires place { self.now.place < 2 ^ 64 - 1 }
        ensures { lane_of self.new ≡ led (tree.Leaves (operand_of test) place) (lane_of self.old) }
    {
        if self.value(test) == 0 {
            leave_turns(&mut self.turns);
            self.place = place as usize;
        } else {
            self.place += 1;
        }
    }

    /// A turn of a loop is over.
    fn again(&mut self, place: u32) -> Result<(), AllocError>
        requires below { EachBelow (2 ^ 64 - 1) self.now.turns }
        ensures { OnOk result (lane_of self.new ≡ led (tree.Again place) (lane_of self.old)) }
    {
        raise(&mut self.turns)?;
        self.place = place as usize;
        Ok(())
    }

    /// An operation that asks for something.
    fn access<A: Surroundings>(
        &mut self,
        alloc: Global,
        at: &A,
        op: VOp,
    ) -> Result<Found<Option<Target>>, AllocError>
        requires place { self.now.place < 2 ^ 64 - 1 }
        ensures { IfOk result (λ found.
            accessed (A.around at.now) (vop_of op) (lane_of self.old)
            ≡ shown told_value found (lane_of self.new)) }
    {
        match op {
            VOp::Fetch {
                register,
                elem,
                address,
            } => Ok(self.fetch(at, register, elem, address)),
            VOp::Write {
                elem,
                address,
                value,
            } => Ok(self.write(at, elem, address, value)),
            VOp::Bar { site } => self.wait(alloc, site),
            _ => Ok(Found::Moved),
        }
    }

    /// A load of an element.
    fn fetch<A: Surroundings>(
        &mut self,
        at: &A,
        register: u32,
        elem: Elem,
        address: Operand,
    ) -> Found<Option<Target>>
        requires place { self.now.place < 2 ^ 64 - 1 }
        ensures { accessed (A.around at.now) (tree.Fetch register elem (operand_of address))
            (lane_of self.old) ≡ shown told_value result (lane_of self.new) }
    {
        let place = at.place(self.value(address));
        let size = size_of_elem(elem);
        self.place += 1;
        Found::Asks(
            Action::Load { place, size },
            Some(Target { register, elem }),
        )
    }

    /// A store to an element.
    fn write<A: Surroundings>(
        &mut self,
        at: &A,
        elem: Elem,
        address: Operand,
        value: Operand,
    ) -> Found<Option<Target>>
        requires place { self.now.place < 2 ^ 64 - 1 }
        ensures { accessed (A.around at.now)
            (tree.Write elem (operand_of address) (operand_of value)) (lane_of self.old)
            ≡ shown told_value result (lane_of self.new) }
    {
        let place = at.place(self.value(address));
        let size = size_of_elem(elem);
        let value = low_bytes(elem, self.value(value));
        self.place += 1;
        Found::Asks(Action::Store { place, size, value }, None)
    }

    /// A barrier.
    fn wait(&mut self, alloc: Global, site: u32) -> Result<Found<Option<Target>>, AllocError>
        requires place { self.now.place < 2 ^ 64 - 1 }
        ensures { IfOk result (λ found.
            waiting site (lane_of self.old) ≡ shown told_value found (lane_of self.new)) }
    {
        let turns = self.turns.to_list(alloc)?;
        self.place += 1;
        Ok(Found::Asks(Action::Barrier(Point { site, turns }), None))
    }

    /// Only lanes of a mask go on.
    fn keep<A: Surroundings>(&mut self, at: &A, mask: Operand) -> Found<Option<Target>>
        requires place { self.now.place < 2 ^ 64 - 1 }
        ensures { stepped (A.around at.now) (tree.Tmc (operand_of mask)) (lane_of self.old)
            ≡ shown told_value result (lane_of self.new) }
    {
        if has_lane(self.value(mask), at.number()) {
            self.place += 1;
            Found::Moved
        } else {
            Found::Stops(Action::End)
        }
    }

    /// An operation.
    fn operate<A: Surroundings>(
        &mut self,
        alloc: Global,
        at: &A,
        op: VOp,
    ) -> Result<Found<Option<Target>>, AllocError>
        requires place { self.now.place < 2 ^ 64 - 1 }
        requires below { EachBelow (2 ^ 64 - 1) self.now.turns }
        ensures { IfOk result (λ found.
            stepped (A.around at.now) (vop_of op) (lane_of self.old)
            ≡ shown told_value found (lane_of self.new)) }
    {
        match op {
            VOp::Copy { .. }
            | VOp::Compute { .. }
            | VOp::Cut { .. }
            | VOp::Word { .. }
            | VOp::WordAt { .. }
            | VOp::Learn { .. } => {
                self.compute(at, op)?;
                Ok(Found::Moved)
            }
            VOp::IfZero { .. }
            | VOp::IfNot { .. }
            | VOp::Goto { .. }
            | VOp::Enter
            | VOp::Leaves { .. }
            | VOp::Again { .. } => {
                self.lead(op)?;
                Ok(Found::Moved)
            }
            VOp::Fetch { .. } | VOp::Write { .. } | VOp::Bar { .. } => self.access(alloc, at, op),
            VOp::Fresh | VOp::Split { .. } | VOp::Join | VOp::Pred { .. } | VOp::Wspawn { .. } => {
                self.place += 1;
                Ok(Found::Moved)
            }
            VOp::Tmc { mask } => Ok(self.keep(at, mask)),
            VOp::Trap { pos } => Ok(Found::Stops(Action::Fault(pos))),
        }
    }

    /// One small step: what it found, and the lane behind it.
    pub fn step<A: Surroundings>(
        &mut self,
        alloc: Global,
        at: &A,
        code: &[VOp],
    ) -> Result<Found<Option<Target>>, AllocError>
        requires below { EachBelow (2 ^ 64 - 1) self.now.turns }
        ensures { IfOk result (λ found.
            step_of_lane (A.around at.now) (vops_of code.now) (lane_of self.old)
            ≡ shown told_value found (lane_of self.new)) }
    {
        let place = self.place;
        if place < code.len() {
            let op = op_at(code, place);
            return self.operate(alloc, at, op);
        }
        Ok(Found::Stops(Action::End))
    }

    /// Takes an answer: the value of a register, or nothing.
    pub fn take_answer(&mut self, kept: Option<Target>, answer: u32) -> Result<(), AllocError>
        ensures { OnOk result (lane_of self.new ≡ told_value kept answer (lane_of self.old)) }
    {
        match kept {
            Some(target) => self
                .registers
                .put(target.register, fit(target.elem, answer)),
            None => Ok(()),
        }
    }
}

/// The operation at a place.
fn op_at(code: &[VOp], place: usize) -> VOp
    requires { place < length code.now }
    ensures { drop place (vops_of code.now) ≡ vop_of result ∷ vops_of (drop (place + 1) code.now) }
{
    code[place]
}

/// Whether a lane is in a set.
fn has_lane(mask: u32, lane: u32) -> bool
    requires { lane < 32 }
    ensures { result ≡ has_lane_of mask lane }
{
    (mask >> lane) % 2 == 1
}
