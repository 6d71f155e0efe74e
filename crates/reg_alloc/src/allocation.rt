//! The words of a kernel.
ghost use Rattle.std.specs.Prelude.{◌≡◌, ◌≤◌, ◌<◌, ◌++◌, ℕ, List, Some, IfOk, IfErr, OnOk, length, map, slice_get};
ghost use Rattle.simt_lowering.specs.Bounds.{AreWithin};
ghost use Rattle.vcode.specs.Shapes.{vop_of, vops_of};
ghost use Rattle.vcode.specs.Words.{words as count_of};
ghost use Rattle.vx_isa.specs.Rows.{row_of};
ghost use Rattle.vx_isa.specs.Words.{Fits, word_of};
ghost use Rattle.vx_isa.specs.declared.image.Site.{Site as AnySite};
ghost use Rattle.vx_isa.specs.declared.instr.Instr.{Instr as AnyInstr};
ghost use Rattle.reg_alloc.specs.Layout.{and_site, instrs_from, instrs_of, sites_of, words_of};
ghost use Rattle.reg_alloc.specs.Laws.{StandIn};
ghost use Rattle.reg_alloc.specs.Views.{AreNear, IsRefused, starts_in};

use crate::blocks::put_block;
use crate::counting::op_words;
use crate::operations::op_at;
use crate::starts::{Starts, find_starts};
use rv_encode::encode;
use std::alloc::{AllocError, Global};
use thiserror::Error;
use vcode::{VCode, VOp};
use vx_base::WordList;
use vx_isa::{Instr, Site, SiteList};

/// Why a kernel has no words.
#[derive(Clone, Copy, Debug, PartialEq, Eq, Error)]
pub enum AllocateFault {
    /// A lane's frame has more than 256 words.
    #[error("a lane's frame has {slots} words, more than 256")]
    TooLarge {
        /// How many it has.
        slots: u32,
    },
    /// Memory ran out.
    #[error("memory ran out")]
    Memory,
}

impl From<AllocError> for AllocateFault {
    ghost use Rattle.std.specs.Prelude.{◌≡◌};
    ghost use Rattle.reg_alloc.specs.declared.allocation.AllocateFault.TheVariants as fault;

    ghost from_gives = { λ _ e. e ≡ fault.Memory };

    fn from(_error: AllocError) -> AllocateFault {
        AllocateFault::Memory
    }
}

/// The words of a kernel, and what is known of them.
#[derive(Debug, Drop)]
pub struct Allocated {
    /// The machine words, from the first on.
    pub words: WordList,
    /// How many words a lane's frame has.
    pub slots: u32,
    /// Where the checks stand.
    pub sites: SiteList,
}

/// The check that is word `word` of the code, if the operation is one.
fn put_site(sites: &mut Vec<Site>, op: VOp, word: u32) -> Result<(), AllocError>
    requires { word ≤ 65536 }
    ensures { OnOk result ((rest : List AnySite) →
        sites.new.items ++ rest ≡ sites.old.items ++ and_site word (vop_of op) rest) }
{
    match op {
        VOp::Trap { pos } => {
            sites.push(Site { pc: 4 * word, pos })?;
            Ok(())
        }
        _ => Ok(()),
    }
}

/// Where the checks stand among operations that come to at most 65,536 words.
fn find_sites(alloc: Global, ops: &[VOp]) -> Result<Vec<Site>, AllocError>
    requires low { count_of (vops_of ops.now) ≤ 65536 }
    ensures { IfOk result (λ sites. sites.items ≡ sites_of (vops_of ops.now)) }
{
    let mut sites = Vec::new(alloc);
    let mut word = 0;
    for k in 0..ops.len() {
        let op = op_at(ops, k);
        put_site(&mut sites, op, word)?;
        word += op_words(op);
    }
    Ok(sites)
}

/// The instructions of operations, by where they begin.
fn instructions(
    alloc: Global,
    starts: &Starts,
    slots: u32,
    ops: &[VOp],
) -> Result<Vec<Instr>, AllocError>
    requires slots { slots ≤ 256 }
    requires within { AreWithin 256 (vops_of ops.now) }
    requires near { AreNear starts.now }
    requires low { count_of (vops_of ops.now) ≤ 65536 }
    ensures { IfOk result (λ code.
        code.items ≡ instrs_from slots (starts_in starts.now) 0 (vops_of ops.now)) }
{
    let mut out = Vec::new(alloc);
    let mut end = 0;
    for k in 0..ops.len() {
        let op = op_at(ops, k);
        end += op_words(op);
        put_block(&mut out, starts, slots, op, end)?;
    }
    Ok(out)
}

/// The machine words of instructions.
fn encoded(alloc: Global, code: &[Instr]) -> Result<Vec<u32>, AllocError>
    requires fit { (k : ℕ) (i : AnyInstr) → slice_get code.now k ≡ Some i → Fits i }
    ensures { IfOk result (λ words. words.items ≡ map word_of code.now) }
{
    let mut words = Vec::new(alloc);
    for k in 0..code.len() {
        words.push(encode(code[k]))?;
    }
    Ok(words)
}

/// The words and the checks of a kernel whose frames have few words.
fn words_and_sites(alloc: Global, slots: u32, ops: &[VOp]) -> Result<Allocated, AllocError>
    requires slots { slots ≤ 256 }
    requires within { AreWithin slots (vops_of ops.now) }
    requires low { count_of (vops_of ops.now) ≤ 65536 }
    ensures words { IfOk result (λ made. made.words ≡ words_of slots (vops_of ops.now)) }
    ensures sites { IfOk result (λ made. made.sites ≡ sites_of (vops_of ops.now)) }
    ensures slots { IfOk result (λ made. made.slots ≡ slots) }
{
    let starts = find_starts(alloc, ops)?;
    let code = instructions(alloc, &starts, slots, ops)?;
    let words = encoded(alloc, code.as_slice())?;
    let sites = find_sites(alloc, ops)?;
    Ok(Allocated {
        words: WordList { items: words },
        slots,
        sites: SiteList { items: sites },
    })
}

/// The machine words of code for lanes, a word of the lane's frame for each of its registers. It is refused exactly if it has more than
/// 256 registers; memory is the only other reason to give up.
pub fn allocate(alloc: Global, code: &VCode) -> Result<Allocated, AllocateFault>
    requires registers { AreWithin code.now.registers (vops_of code.now.ops.items) }
    requires words { count_of (vops_of code.now.ops.items) ≤ 65536 }
    ensures words { IfOk result (λ made.
        made.words ≡ words_of code.now.registers (vops_of code.now.ops.items)) }
    ensures sites { IfOk result (λ made. made.sites ≡ sites_of (vops_of code.now.ops.items)) }
    ensures slots { IfOk result (λ made. made.slots ≡ code.now.registers) }
    ensures small { IfOk result (λ made. made.slots ≤ 256) }
    ensures refused { IfErr result (IsRefused code.now.registers) }
    ensures counted { IfOk result (λ made.
        length made.words ≡ count_of (vops_of code.now.ops.items)) }
    ensures stand { IfOk result (λ made.
        StandIn made.slots (vops_of code.now.ops.items) made.words) }
    ensures decoded { IfOk result (λ made.
        map row_of made.words ≡ map Some (instrs_of made.slots (vops_of code.now.ops.items))) }
{
    if code.registers > 256 {
        return Err(AllocateFault::TooLarge {
            slots: code.registers,
        });
    }
    let made = words_and_sites(alloc, code.registers, code.ops.as_slice())?;
    Ok(made)
}
