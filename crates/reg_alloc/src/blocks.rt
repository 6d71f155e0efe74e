//! The block of each operation.
ghost use Rattle.std.specs.Prelude.{◌≡◌, ◌<◌, ◌≤◌, ◌-◌, ◌*◌, [], ◌∷◌, OnOk};
ghost use Rattle.kir.specs.Shapes.{operand_of};
ghost use Rattle.kir.specs.Numbered.{IsBelow};
ghost use Rattle.simt_lowering.specs.Bounds.{OpWithin};
ghost use Rattle.vcode.specs.Shapes.{vop_of};
ghost use Rattle.vcode.specs.Words.{op_words};
ghost use Rattle.reg_alloc.specs.Plain.{left as left_of, right as right_of};
ghost use Rattle.reg_alloc.specs.Blocks.{address_of_word, block, compute_word, csr_number as csr_number_of, cut_word, ends, fresh_before, jump as jump_of, leads, load_word, operand_before, pair_before, register_of as register_in, right_before, spare_bits as spare_bits_of, store_word, stores};
ghost use Rattle.reg_alloc.specs.Plain.{AddTo, Calculate, GetBlock, GetLane, GetSlot, GetWarp, High, PutSlot, ShiftLeft, block_base, instr_of};
ghost use Rattle.reg_alloc.specs.Layout.{block_onto, plain_onto};
ghost use Rattle.reg_alloc.specs.Views.{AreNear, Puts, PutsPlain, starts_in};
ghost use Rattle.vx_base.specs.declared.types.Alu.TheVariants as alu;
ghost use Rattle.vx_isa.specs.declared.instr.Instr.TheVariants as instr;

use crate::numbers::{address, distance};
use crate::putting::{put, put_made, put_operand, put_pair, put_right, put_slot_read};
use crate::rows::{
    BLOCK, FRAME, LEFT, MADE, RIGHT, compute_instr, csr_number, cut_instr, load_instr, register_of,
    spare_bits, store_instr,
};
use crate::starts::Starts;
use kir::Operand;
use std::alloc::AllocError;
use vcode::{Csr, VOp};
use vx_base::{Alu, Elem};
use vx_isa::Instr;

/// The first address of a launch block, in units of 4,096 bytes.
const BLOCK_PAGE: u32 = 0x10000;

/// That of the frames.
const FRAMES_PAGE: u32 = 0x10080;

/// An operand, and a word that works on it.
fn put_ends(out: &mut Vec<Instr>, a: Operand, acting: Instr) -> Result<(), AllocError>
    requires { IsBelow 256 (operand_of a) }
    ensures { OnOk result (Puts out.old.items out.new.items
        (block_onto (ends (operand_before left_of (operand_of a) []) acting))) }
{
    put_operand(out, LEFT, a)?;
    put(out, acting)
}

/// An operand, a word that makes a result of it, and the word that stores the result.
fn put_stores(out: &mut Vec<Instr>, a: Operand, making: Instr, slot: u32) -> Result<(), AllocError>
    requires operand { IsBelow 256 (operand_of a) }
    requires slot { slot < 256 }
    ensures { OnOk result (Puts out.old.items out.new.items
        (block_onto (stores slot (operand_before left_of (operand_of a) []) making))) }
{
    put_operand(out, LEFT, a)?;
    put_made(out, making, slot)
}

/// The jump that is a word of the code, to another.
fn jump(from: u32, to: u32) -> Instr
    requires from { from ≤ 65536 }
    requires to { to ≤ 65536 }
    ensures { result ≡ jump_of from to }
{
    Instr::Jal {
        rd: 0,
        place: distance(from, to),
    }
}

/// An operand, a branch by it over the next word, and the jump that is the word before `end`.
fn put_leads(
    out: &mut Vec<Instr>,
    a: Operand,
    branch: Instr,
    end: u32,
    to: u32,
) -> Result<(), AllocError>
    requires operand { IsBelow 256 (operand_of a) }
    requires some { 0 < end }
    requires end { end ≤ 65536 }
    requires to { to ≤ 65536 }
    ensures { OnOk result (Puts out.old.items out.new.items
        (block_onto (leads (operand_before left_of (operand_of a) []) branch
        (jump_of (end - 1) to)))) }
{
    put_operand(out, LEFT, a)?;
    put(out, branch)?;
    put(out, jump(end - 1, to))
}

/// The lanes of the warps before, and the register of the launch block.
fn put_lanes_before(out: &mut Vec<Instr>) -> Result<(), AllocError>
    ensures { OnOk result (PutsPlain out.old.items out.new.items
        (λ ws. High block_base 0x10000 ∷ GetWarp left_of ∷ GetBlock right_of 15
        ∷ Calculate alu.Mul left_of left_of right_of ∷ ws)) }
{
    put(
        out,
        Instr::Lui {
            rd: BLOCK,
            imm: BLOCK_PAGE,
        },
    )?;
    put(
        out,
        Instr::Csrr {
            rd: LEFT,
            csr: 0xcc1,
        },
    )?;
    put(
        out,
        Instr::Lw {
            rd: RIGHT,
            imm: 60,
            rs1: BLOCK,
        },
    )?;
    put(
        out,
        Instr::Mul {
            rd: LEFT,
            rs1: LEFT,
            rs2: RIGHT,
        },
    )
}

/// The lanes before this one.
fn put_lane_before(out: &mut Vec<Instr>) -> Result<(), AllocError>
    ensures { OnOk result (PutsPlain out.old.items out.new.items
        (λ ws. GetLane right_of ∷ Calculate alu.Add left_of left_of right_of ∷ ws)) }
{
    put(
        out,
        Instr::Csrr {
            rd: RIGHT,
            csr: 0xcc0,
        },
    )?;
    put(
        out,
        Instr::Add {
            rd: LEFT,
            rs1: LEFT,
            rs2: RIGHT,
        },
    )
}

/// The address of the lane's frame, from how many lanes there are before it.
fn put_frame(out: &mut Vec<Instr>, slots: u32) -> Result<(), AllocError>
    requires { slots ≤ 256 }
    ensures { OnOk result (Puts out.old.items out.new.items
        (block_onto (ends (AddTo right_of 0 (4 * slots)
        ∷ Calculate alu.Mul left_of left_of right_of
        ∷ High right_of 0x10080 ∷ []) (instr.Add 4 left_of right_of)))) }
{
    put(
        out,
        Instr::Addi {
            rd: RIGHT,
            rs1: 0,
            imm: 4 * slots,
        },
    )?;
    put(
        out,
        Instr::Mul {
            rd: LEFT,
            rs1: LEFT,
            rs2: RIGHT,
        },
    )?;
    put(
        out,
        Instr::Lui {
            rd: RIGHT,
            imm: FRAMES_PAGE,
        },
    )?;
    put(
        out,
        Instr::Add {
            rd: FRAME,
            rs1: LEFT,
            rs2: RIGHT,
        },
    )
}

/// The registers of the launch block and of the lane's frame.
fn put_fresh(out: &mut Vec<Instr>, slots: u32) -> Result<(), AllocError>
    requires { slots ≤ 256 }
    ensures { OnOk result (Puts out.old.items out.new.items
        (block_onto (ends (fresh_before slots) (instr.Add 4 left_of right_of)))) }
{
    put_lanes_before(out)?;
    put_lane_before(out)?;
    put_frame(out, slots)
}

/// An operand into a word of the frame.
fn put_copy(out: &mut Vec<Instr>, slot: u32, a: Operand) -> Result<(), AllocError>
    requires slot { slot < 256 }
    requires operand { IsBelow 256 (operand_of a) }
    ensures { OnOk result (Puts out.old.items out.new.items
        (block_onto (ends (operand_before left_of (operand_of a) [])
        (instr_of (PutSlot (register_in left_of (operand_of a)) slot))))) }
{
    let (rs2, imm, rs1) = (register_of(LEFT, a), 4 * slot, FRAME);
    put_ends(out, a, Instr::Sw { rs2, imm, rs1 })
}

/// A word of the launch block into a word of the frame.
fn put_word(out: &mut Vec<Instr>, slot: u32, word: u32) -> Result<(), AllocError>
    requires slot { slot < 256 }
    requires word { word < 64 }
    ensures { OnOk result (Puts out.old.items out.new.items
        (block_onto (stores slot [] (instr_of (GetBlock 7 word))))) }
{
    let (rd, imm, rs1) = (MADE, 4 * word, BLOCK);
    put_made(out, Instr::Lw { rd, imm, rs1 }, slot)
}

/// A control register into a word of the frame.
fn put_learn(out: &mut Vec<Instr>, slot: u32, csr: Csr) -> Result<(), AllocError>
    requires slot { slot < 256 }
    ensures { OnOk result (Puts out.old.items out.new.items
        (block_onto (stores slot [] (instr.Csrr 7 (csr_number_of csr))))) }
{
    let (rd, csr) = (MADE, csr_number(csr));
    put_made(out, Instr::Csrr { rd, csr }, slot)
}

/// The element at the address in an operand into a word of the frame.
fn put_fetch(out: &mut Vec<Instr>, slot: u32, elem: Elem, a: Operand) -> Result<(), AllocError>
    requires slot { slot < 256 }
    requires operand { IsBelow 256 (operand_of a) }
    ensures { OnOk result (Puts out.old.items out.new.items
        (block_onto (stores slot (operand_before left_of (operand_of a) [])
        (load_word elem (register_in left_of (operand_of a)))))) }
{
    let load = load_instr(elem, register_of(LEFT, a));
    put_stores(out, a, load, slot)
}

/// To a word of the code, unless an operand is not 0. The words end before word `end`.
fn put_unless_zero(out: &mut Vec<Instr>, a: Operand, end: u32, to: u32) -> Result<(), AllocError>
    requires operand { IsBelow 256 (operand_of a) }
    requires some { 0 < end }
    requires end { end ≤ 65536 }
    requires to { to ≤ 65536 }
    ensures { OnOk result (Puts out.old.items out.new.items
        (block_onto (leads (operand_before left_of (operand_of a) [])
        (instr.Bne (register_in left_of (operand_of a)) 0 8) (jump_of (end - 1) to)))) }
{
    let (rs1, rs2, place) = (register_of(LEFT, a), 0, 8);
    put_leads(out, a, Instr::Bne { rs1, rs2, place }, end, to)
}

/// To a word of the code, unless an operand is 0. The words end before word `end`.
fn put_if_zero(out: &mut Vec<Instr>, a: Operand, end: u32, to: u32) -> Result<(), AllocError>
    requires operand { IsBelow 256 (operand_of a) }
    requires some { 0 < end }
    requires end { end ≤ 65536 }
    requires to { to ≤ 65536 }
    ensures { OnOk result (Puts out.old.items out.new.items
        (block_onto (leads (operand_before left_of (operand_of a) [])
        (instr.Beq (register_in left_of (operand_of a)) 0 8) (jump_of (end - 1) to)))) }
{
    let (rs1, rs2, place) = (register_of(LEFT, a), 0, 8);
    put_leads(out, a, Instr::Beq { rs1, rs2, place }, end, to)
}

/// The warp parts by an operand.
fn put_split(out: &mut Vec<Instr>, a: Operand) -> Result<(), AllocError>
    requires { IsBelow 256 (operand_of a) }
    ensures { OnOk result (Puts out.old.items out.new.items
        (block_onto (ends (operand_before left_of (operand_of a) [])
        (instr.Split (register_in left_of (operand_of a)))))) }
{
    let rs1 = register_of(LEFT, a);
    put_ends(out, a, Instr::Split { rs1 })
}

/// Only the lanes of a mask go on.
fn put_tmc(out: &mut Vec<Instr>, a: Operand) -> Result<(), AllocError>
    requires { IsBelow 256 (operand_of a) }
    ensures { OnOk result (Puts out.old.items out.new.items
        (block_onto (ends (operand_before left_of (operand_of a) [])
        (instr.Tmc (register_in left_of (operand_of a)))))) }
{
    let rs1 = register_of(LEFT, a);
    put_ends(out, a, Instr::Tmc { rs1 })
}

/// What an operation on two operands gives.
fn put_compute(
    out: &mut Vec<Instr>,
    slot: u32,
    op: Alu,
    a: Operand,
    b: Operand,
) -> Result<(), AllocError>
    requires slot { slot < 256 }
    requires first { IsBelow 256 (operand_of a) }
    requires second { IsBelow 256 (operand_of b) }
    ensures { OnOk result (Puts out.old.items out.new.items
        (block_onto (stores slot (operand_before left_of (operand_of a)
        (right_before op (operand_of b) []))
        (compute_word op (operand_of b) (register_in left_of (operand_of a)))))) }
{
    put_operand(out, LEFT, a)?;
    put_right(out, op, b)?;
    put_made(out, compute_instr(op, b, register_of(LEFT, a)), slot)
}

/// An operand cut to a type.
fn put_cut(out: &mut Vec<Instr>, slot: u32, elem: Elem, a: Operand) -> Result<(), AllocError>
    requires slot { slot < 256 }
    requires operand { IsBelow 256 (operand_of a) }
    ensures { OnOk result (Puts out.old.items out.new.items
        (block_onto (stores slot (operand_before left_of (operand_of a)
        (ShiftLeft 7 (register_in left_of (operand_of a)) (spare_bits_of elem) ∷ []))
        (cut_word elem)))) }
{
    put_operand(out, LEFT, a)?;
    put(
        out,
        Instr::Slli {
            rd: MADE,
            rs1: register_of(LEFT, a),
            amount: spare_bits(elem),
        },
    )?;
    put_made(out, cut_instr(elem), slot)
}

/// A word of the launch block whose number is a sum.
fn put_word_at(out: &mut Vec<Instr>, slot: u32, index: Operand, word: u32) -> Result<(), AllocError>
    requires slot { slot < 256 }
    requires operand { IsBelow 256 (operand_of index) }
    requires word { word < 64 }
    ensures { OnOk result (Puts out.old.items out.new.items
        (block_onto (stores slot (operand_before left_of (operand_of index)
        (ShiftLeft left_of (register_in left_of (operand_of index)) 2
        ∷ Calculate alu.Add left_of left_of block_base ∷ []))
        (instr.Lw 7 (4 * word) left_of)))) }
{
    put_operand(out, LEFT, index)?;
    put(
        out,
        Instr::Slli {
            rd: LEFT,
            rs1: register_of(LEFT, index),
            amount: 2,
        },
    )?;
    put(
        out,
        Instr::Add {
            rd: LEFT,
            rs1: LEFT,
            rs2: BLOCK,
        },
    )?;
    let (rd, imm, rs1) = (MADE, 4 * word, LEFT);
    put_made(out, Instr::Lw { rd, imm, rs1 }, slot)
}

/// A value to the address in an operand.
fn put_write(out: &mut Vec<Instr>, elem: Elem, a: Operand, b: Operand) -> Result<(), AllocError>
    requires first { IsBelow 256 (operand_of a) }
    requires second { IsBelow 256 (operand_of b) }
    ensures { OnOk result (Puts out.old.items out.new.items
        (block_onto (ends (operand_before left_of (operand_of a)
        (operand_before right_of (operand_of b) []))
        (store_word elem (register_in left_of (operand_of a))
        (register_in right_of (operand_of b)))))) }
{
    put_operand(out, LEFT, a)?;
    put_operand(out, RIGHT, b)?;
    let (address, value) = (register_of(LEFT, a), register_of(RIGHT, b));
    put(out, store_instr(elem, address, value))
}

/// Only lanes whose operand is not 0 go on, or those of the mask in a word of the frame.
fn put_pred(out: &mut Vec<Instr>, test: Operand, mask: u32) -> Result<(), AllocError>
    requires test { IsBelow 256 (operand_of test) }
    requires mask { mask < 256 }
    ensures { OnOk result (Puts out.old.items out.new.items
        (block_onto (ends (operand_before left_of (operand_of test) (GetSlot right_of mask ∷ []))
        (instr.Pred (register_in left_of (operand_of test)) right_of)))) }
{
    put_operand(out, LEFT, test)?;
    put_slot_read(out, RIGHT, mask)?;
    let (rs1, rs2) = (register_of(LEFT, test), RIGHT);
    put(out, Instr::Pred { rs1, rs2 })
}

/// Warps begin at a word of the code.
fn put_spawn(out: &mut Vec<Instr>, count: Operand, word: u32) -> Result<(), AllocError>
    requires count { IsBelow 256 (operand_of count) }
    requires word { word ≤ 65536 }
    ensures { OnOk result (Puts out.old.items out.new.items
        (block_onto (ends (operand_before left_of (operand_of count)
        (pair_before right_of (address_of_word word) []))
        (instr.Wspawn (register_in left_of (operand_of count)) right_of)))) }
{
    put_operand(out, LEFT, count)?;
    put_pair(out, RIGHT, address(word))?;
    let (rs1, rs2) = (register_of(LEFT, count), RIGHT);
    put(out, Instr::Wspawn { rs1, rs2 })
}

/// A barrier for the warps of the group, by its number.
fn put_bar(out: &mut Vec<Instr>, site: u32) -> Result<(), AllocError>
    ensures { OnOk result (Puts out.old.items out.new.items
        (block_onto (ends (pair_before left_of site (GetBlock right_of 0 ∷ []))
        (instr.Bar left_of right_of)))) }
{
    put_pair(out, LEFT, site)?;
    put(
        out,
        Instr::Lw {
            rd: RIGHT,
            imm: 0,
            rs1: BLOCK,
        },
    )?;
    put(
        out,
        Instr::Bar {
            rs1: LEFT,
            rs2: RIGHT,
        },
    )
}

/// The block of an operation whose last word is the one before word `end`, for a frame of so many words.
pub fn put_block(
    out: &mut Vec<Instr>,
    starts: &Starts,
    slots: u32,
    op: VOp,
    end: u32,
) -> Result<(), AllocError>
    requires slots { slots ≤ 256 }
    requires within { OpWithin 256 (vop_of op) }
    requires near { AreNear starts.now }
    requires behind { op_words (vop_of op) ≤ end }
    requires end { end ≤ 65536 }
    ensures { OnOk result (Puts out.old.items out.new.items
        (block_onto (block slots (starts_in starts.now) end (vop_of op)))) }
{
    match op {
        VOp::Fresh => put_fresh(out, slots),
        VOp::Copy { register, value } => put_copy(out, register, value),
        VOp::Compute {
            register,
            op,
            left,
            right,
        } => put_compute(out, register, op, left, right),
        VOp::Cut {
            register,
            elem,
            value,
        } => put_cut(out, register, elem, value),
        VOp::Word { register, word } => put_word(out, register, word),
        VOp::WordAt {
            register,
            index,
            word,
        } => put_word_at(out, register, index, word),
        VOp::Learn { register, csr } => put_learn(out, register, csr),
        VOp::Fetch {
            register,
            elem,
            address,
        } => put_fetch(out, register, elem, address),
        VOp::Write {
            elem,
            address,
            value,
        } => put_write(out, elem, address, value),
        VOp::IfZero { test, place } | VOp::Leaves { test, place } => {
            put_unless_zero(out, test, end, starts.of(place))
        }
        VOp::IfNot { test, place } => put_if_zero(out, test, end, starts.of(place)),
        VOp::Goto { place } | VOp::Again { place } => put(out, jump(end - 1, starts.of(place))),
        VOp::Split { test } => put_split(out, test),
        VOp::Join => put(out, Instr::Join),
        VOp::Pred { test, mask } => put_pred(out, test, mask),
        VOp::Tmc { mask } => put_tmc(out, mask),
        VOp::Wspawn { count, place } => put_spawn(out, count, starts.of(place)),
        VOp::Bar { site } => put_bar(out, site),
        VOp::Trap { .. } => put(out, Instr::Ebreak),
        VOp::Enter => Ok(()),
    }
}
