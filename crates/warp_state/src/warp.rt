ghost use Rattle.std.specs.Prelude.{◌≡◌, ◌≢◌, ◌≤◌, length};
ghost use Rattle.vx_isa.specs.Effects.{address_at};
ghost use Rattle.vx_isa.specs.Warps.{cut, started};
ghost use Rattle.vx_isa.specs.WarpSteps.{Takes, agree, diverge, go_on, instr_step, join_step, lanes_step, leader_value, nonzero_lanes, pred_mask, split_step, warp_step, whole_trap, with_mask, zero_lanes};
ghost use Rattle.warp_state.specs.Acts.{Leaves};
ghost use Rattle.warp_state.specs.Lanes.{state_of};

use crate::fetch::fetch;
use crate::lane::{Lane, Shared, choice_of, leads_to};
use crate::lanes::{act_all, effect_at, idle_lanes, nonzero_lanes, value_at};
use crate::masks::{cut, leader};
use crate::memory::LaneMemory;
use ipdom_stack::{DEPTH, Full, Held, Ipdom};
use std::marker::Model;
use vx_isa::{Ids, Instr, MachineTrap, Step};

/// A warp of up to 32 lanes. It has ended where its mask is empty.
#[derive(Debug, Drop)]
pub struct Warp {
    // The address of the next instruction.
    pc: u32,
    // The active lanes.
    mask: u32,
    lanes: [Lane; 32],
    stack: Ipdom,
}

impl Model for Warp {
    ghost use Rattle.warp_state.specs.Lanes.{KeptWarp};

    ghost Value = { KeptWarp };

    ghost view = { λ w. record { pc = w.pc; mask = w.mask; lanes = w.lanes; stack = w.stack } };
}

impl Warp {
    /// A warp that has ended, with all registers 0.
    pub fn new() -> Warp
        ensures { state_of result ≡ started 0 0 }
    {
        Warp {
            pc: 0,
            mask: 0,
            lanes: idle_lanes(),
            stack: Ipdom::new(),
        }
    }

    /// Starts the warp at an address with these active lanes: all registers are 0, and the stack is empty.
    pub fn start(&mut self, pc: u32, mask: u32)
        ensures { state_of self.new ≡ started pc mask }
    {
        self.pc = pc;
        self.mask = mask;
        self.lanes = idle_lanes();
        self.stack.clear();
    }

    /// The active lanes.
    pub fn mask(&self) -> u32
        ensures { result ≡ self.now.mask }
    {
        self.mask
    }

    /// How many entries the divergence stack has, at most 64.
    pub fn depth(&self) -> usize
        ensures value { result ≡ length self.now.stack }
        ensures most { result ≤ 64 }
    {
        self.stack.len()
    }

    // What a register reads as in the least active lane.
    fn leader_value(&self, register: u32) -> u32
        requires { self.now.mask ≢ 0 }
        ensures { result ≡ leader_value (state_of self.now) register }
    {
        value_at(&self.lanes, leader(self.mask), register)
    }

    // The active lanes in which a register is not 0.
    fn nonzero_lanes(&self, register: u32) -> u32
        ensures { result ≡ nonzero_lanes (state_of self.now) register }
    {
        nonzero_lanes(&self.lanes, self.mask, register)
    }

    // The active lanes in which a register is 0.
    fn zero_lanes(&self, register: u32) -> u32
        ensures { result ≡ zero_lanes (state_of self.now) register }
    {
        self.mask & !nonzero_lanes(&self.lanes, self.mask, register)
    }

    // The warp traps as a whole.
    fn trap(&self, fault: MachineTrap) -> Step
        requires { self.now.mask ≢ 0 }
        ensures { Leaves (whole_trap fault (state_of self.now)) result (state_of self.now) }
    {
        Step::Trap {
            fault,
            lane: leader(self.mask),
            pc: self.pc,
        }
    }

    // The warp goes on behind the instruction.
    fn go_on(&mut self, outcome: Step) -> Step
        ensures { Leaves (go_on outcome (address_at self.old.pc 4) self.old.mask self.old.stack (state_of self.old)) result (state_of self.new) }
    {
        self.pc = self.pc.wrapping_add(4);
        outcome
    }

    // The warp goes on behind the instruction with these lanes. Where there is none, it has ended.
    fn set_mask(&mut self, mask: u32) -> Step
        ensures { Leaves (with_mask mask (state_of self.old)) result (state_of self.new) }
    {
        self.pc = self.pc.wrapping_add(4);
        self.mask = mask;
        if mask == 0 { Step::Ended } else { Step::Next }
    }

    // A `split` with lanes for both sides: the first go on, and the others wait.
    fn diverge(&mut self, on: u32, off: u32) -> Step
        requires { self.old.mask ≢ 0 }
        ensures { Leaves (diverge on off (state_of self.old)) result (state_of self.new) }
    {
        if self.stack.len() + 2 > DEPTH {
            return self.trap(MachineTrap::StackFull);
        }
        let pc = self.pc.wrapping_add(4);
        let _ = self.stack.push(Held::Restore { mask: self.mask });
        let _ = self.stack.push(Held::Else { mask: off, pc });
        self.mask = on;
        self.pc = pc;
        Step::Diverged
    }

    // A `split` with lanes for one side alone.
    fn agree(&mut self) -> Step
        requires { self.old.mask ≢ 0 }
        ensures { Leaves (agree (state_of self.old)) result (state_of self.new) }
    {
        match self.stack.push(Held::Restore { mask: self.mask }) {
            Ok(()) => self.go_on(Step::Agreed),
            Err(Full) => self.trap(MachineTrap::StackFull),
        }
    }

    // A `split`, by the lanes for its two sides.
    fn split(&mut self, on: u32, off: u32) -> Step
        requires { self.old.mask ≢ 0 }
        ensures { Leaves (split_step on off (state_of self.old)) result (state_of self.new) }
    {
        if on != 0 && off != 0 {
            self.diverge(on, off)
        } else {
            self.agree()
        }
    }

    // A `join`.
    fn join(&mut self) -> Step
        requires { self.old.mask ≢ 0 }
        ensures { Leaves (join_step self.old.stack (state_of self.old)) result (state_of self.new) }
    {
        match self.stack.pop() {
            Some(Held::Restore { mask }) => {
                self.mask = mask;
                self.go_on(Step::Next)
            }
            Some(Held::Else { mask, pc }) => {
                self.mask = mask;
                self.pc = pc;
                Step::Next
            }
            None => self.trap(MachineTrap::JoinEmpty),
        }
    }

    // A `pred`: the active lanes in which the first register is not 0 stay, or else those of the second.
    fn keep_lanes(&mut self, lanes: u32, rs1: u32, rs2: u32) -> Step
        requires { self.old.mask ≢ 0 }
        ensures { let w = state_of self.old in
            Leaves (with_mask (pred_mask (nonzero_lanes w rs1) (cut lanes (leader_value w rs2))) w) result (state_of self.new) }
    {
        let stay = self.nonzero_lanes(rs1);
        if stay != 0 {
            return self.set_mask(stay);
        }
        self.set_mask(cut(lanes, self.leader_value(rs2)))
    }

    // An instruction that each active lane does.
    fn do_lanes<M: LaneMemory>(&mut self, i: Instr, ids: Ids, memory: &mut M) -> Step
        requires active { self.old.mask ≢ 0 }
        requires sound { M.is_sound memory.old }
        ensures step { Takes M.acts (λ answers. lanes_step (M.has memory.old) ids i answers (state_of self.old)) memory.old result (state_of self.new) memory.new }
        ensures same_fields { M.has memory.new ≡ M.has memory.old }
        ensures sound { M.is_sound memory.new }
    {
        let did = effect_at(&self.lanes, leader(self.mask), i, self.pc);
        let shared = Shared {
            ids,
            mask: self.mask,
            pc: self.pc,
            rs1: i.rs1(),
            rs2: i.rs2(),
            chosen: choice_of(did),
        };
        match act_all(&mut self.lanes, i, &shared, memory) {
            Ok(()) => {
                self.pc = leads_to(self.pc, did);
                Step::Next
            }
            Err(stop) => Step::Trap {
                fault: stop.fault,
                lane: stop.lane,
                pc: self.pc,
            },
        }
    }

    // An instruction.
    fn do_instr<M: LaneMemory>(&mut self, i: Instr, ids: Ids, memory: &mut M) -> Step
        requires active { self.old.mask ≢ 0 }
        requires sound { M.is_sound memory.old }
        ensures step { Takes M.acts (λ answers. instr_step (M.has memory.old) ids answers (state_of self.old) i) memory.old result (state_of self.new) memory.new }
        ensures same_fields { M.has memory.new ≡ M.has memory.old }
        ensures sound { M.is_sound memory.new }
    {
        match i {
            Instr::Tmc { rs1 } => self.set_mask(cut(ids.lanes, self.leader_value(rs1))),
            Instr::Wspawn { rs1, rs2 } => {
                let count = self.leader_value(rs1);
                let pc = self.leader_value(rs2);
                self.go_on(Step::Spawn { count, pc })
            }
            Instr::Split { rs1 } => self.split(self.nonzero_lanes(rs1), self.zero_lanes(rs1)),
            Instr::Join => self.join(),
            Instr::Bar { rs1, rs2 } => {
                let bar = self.leader_value(rs1) % 16;
                let count = self.leader_value(rs2);
                self.go_on(Step::Wait { bar, count })
            }
            Instr::Pred { rs1, rs2 } => self.keep_lanes(ids.lanes, rs1, rs2),
            _ => self.do_lanes(i, ids, memory),
        }
    }

    /// One instruction, of the code whose first word is at the address 0x80000000. The warp must not have ended.
    ///
    /// A trap leaves the warp where it is, with its mask and its stack; the active lanes below the one that it names have
    /// acted.
    pub fn step<M: LaneMemory>(&mut self, code: &[u32], ids: Ids, memory: &mut M) -> Step
        requires active { self.old.mask ≢ 0 }
        requires sound { M.is_sound memory.old }
        ensures step { Takes M.acts (λ answers. warp_step (M.has memory.old) ids code.now answers (state_of self.old)) memory.old result (state_of self.new) memory.new }
        ensures same_fields { M.has memory.new ≡ M.has memory.old }
        ensures sound { M.is_sound memory.new }
    {
        match fetch(code, self.pc) {
            Ok(i) => self.do_instr(i, ids, memory),
            Err(fault) => self.trap(fault),
        }
    }
}
