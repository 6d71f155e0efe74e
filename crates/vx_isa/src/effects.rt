ghost use Rattle.std.specs.Prelude.{◌≡◌};
ghost use Rattle.vx_isa.specs.Effects.{address_at, effect_of, is_less};

use crate::instr::{Instr, LaneEffect};
use vx_base::{Alu, Size, alu_value};

/// What one lane does at an instruction whose place is `pc`, where rs1 has the value `a` and rs2 the value `b`.
pub fn effect(i: Instr, pc: u32, a: u32, b: u32) -> LaneEffect
    ensures { result ≡ effect_of i pc a b }
{
    match i {
        Instr::Lui { rd, imm } => write(rd, imm.wrapping_shl(12)),
        Instr::Auipc { rd, imm } => write(rd, pc.wrapping_add(imm.wrapping_shl(12))),
        Instr::Jal { rd, place } => jump(rd, pc, pc.wrapping_add(place)),
        Instr::Jalr { rd, imm, .. } => jump(rd, pc, a.wrapping_add(imm) & !1),
        Instr::Beq { place, .. } => branch(a == b, pc, place),
        Instr::Bne { place, .. } => branch(a != b, pc, place),
        Instr::Blt { place, .. } => branch(is_less(a, b), pc, place),
        Instr::Bge { place, .. } => branch(!is_less(a, b), pc, place),
        Instr::Bltu { place, .. } => branch(a < b, pc, place),
        Instr::Bgeu { place, .. } => branch(a >= b, pc, place),
        Instr::Lb { rd, imm, .. } => load(rd, a.wrapping_add(imm), Size::One, true),
        Instr::Lh { rd, imm, .. } => load(rd, a.wrapping_add(imm), Size::Two, true),
        Instr::Lw { rd, imm, .. } => load(rd, a.wrapping_add(imm), Size::Four, false),
        Instr::Lbu { rd, imm, .. } => load(rd, a.wrapping_add(imm), Size::One, false),
        Instr::Lhu { rd, imm, .. } => load(rd, a.wrapping_add(imm), Size::Two, false),
        Instr::Sb { imm, .. } => store(a.wrapping_add(imm), Size::One, b),
        Instr::Sh { imm, .. } => store(a.wrapping_add(imm), Size::Two, b),
        Instr::Sw { imm, .. } => store(a.wrapping_add(imm), Size::Four, b),
        Instr::Addi { rd, imm, .. } => write(rd, alu_value(Alu::Add, a, imm)),
        Instr::Slti { rd, imm, .. } => write(rd, alu_value(Alu::Slt, a, imm)),
        Instr::Sltiu { rd, imm, .. } => write(rd, alu_value(Alu::Sltu, a, imm)),
        Instr::Xori { rd, imm, .. } => write(rd, alu_value(Alu::Xor, a, imm)),
        Instr::Ori { rd, imm, .. } => write(rd, alu_value(Alu::Or, a, imm)),
        Instr::Andi { rd, imm, .. } => write(rd, alu_value(Alu::And, a, imm)),
        Instr::Slli { rd, amount, .. } => write(rd, alu_value(Alu::Sll, a, amount)),
        Instr::Srli { rd, amount, .. } => write(rd, alu_value(Alu::Srl, a, amount)),
        Instr::Srai { rd, amount, .. } => write(rd, alu_value(Alu::Sra, a, amount)),
        Instr::Add { rd, .. } => write(rd, alu_value(Alu::Add, a, b)),
        Instr::Sub { rd, .. } => write(rd, alu_value(Alu::Sub, a, b)),
        Instr::Sll { rd, .. } => write(rd, alu_value(Alu::Sll, a, b)),
        Instr::Slt { rd, .. } => write(rd, alu_value(Alu::Slt, a, b)),
        Instr::Sltu { rd, .. } => write(rd, alu_value(Alu::Sltu, a, b)),
        Instr::Xor { rd, .. } => write(rd, alu_value(Alu::Xor, a, b)),
        Instr::Srl { rd, .. } => write(rd, alu_value(Alu::Srl, a, b)),
        Instr::Sra { rd, .. } => write(rd, alu_value(Alu::Sra, a, b)),
        Instr::Or { rd, .. } => write(rd, alu_value(Alu::Or, a, b)),
        Instr::And { rd, .. } => write(rd, alu_value(Alu::And, a, b)),
        Instr::Mul { rd, .. } => write(rd, alu_value(Alu::Mul, a, b)),
        Instr::Mulh { rd, .. } => write(rd, alu_value(Alu::Mulh, a, b)),
        Instr::Mulhsu { rd, .. } => write(rd, alu_value(Alu::Mulhsu, a, b)),
        Instr::Mulhu { rd, .. } => write(rd, alu_value(Alu::Mulhu, a, b)),
        Instr::Div { rd, .. } => write(rd, alu_value(Alu::Div, a, b)),
        Instr::Divu { rd, .. } => write(rd, alu_value(Alu::Divu, a, b)),
        Instr::Rem { rd, .. } => write(rd, alu_value(Alu::Rem, a, b)),
        Instr::Remu { rd, .. } => write(rd, alu_value(Alu::Remu, a, b)),
        Instr::Fence { .. } => LaneEffect::Nothing,
        Instr::Ebreak => LaneEffect::Break,
        Instr::Csrr { rd, csr } => LaneEffect::Csr { rd, csr },
        Instr::Tmc { .. }
        | Instr::Wspawn { .. }
        | Instr::Split { .. }
        | Instr::Join
        | Instr::Bar { .. }
        | Instr::Pred { .. } => LaneEffect::Warp,
    }
}

/// The register gets the value.
fn write(rd: u32, value: u32) -> LaneEffect
    ensures { result ≡ LaneEffect.Write rd value }
{
    LaneEffect::Write { rd, value }
}

/// The register gets the field at the address.
fn load(rd: u32, address: u32, size: Size, signed: bool) -> LaneEffect
    ensures { result ≡ LaneEffect.Load rd address size signed }
{
    LaneEffect::Load {
        rd,
        address,
        size,
        signed,
    }
}

/// The field at the address gets the low bytes of the value.
fn store(address: u32, size: Size, value: u32) -> LaneEffect
    ensures { result ≡ LaneEffect.Store address size value }
{
    LaneEffect::Store {
        address,
        size,
        value,
    }
}

/// A branch from `pc` over a distance.
fn branch(taken: bool, pc: u32, place: u32) -> LaneEffect
    ensures { result ≡ LaneEffect.Branch taken (address_at pc place) }
{
    let target = pc.wrapping_add(place);
    LaneEffect::Branch { taken, target }
}

/// A jump from `pc`, which leaves the place behind it in the register.
fn jump(rd: u32, pc: u32, target: u32) -> LaneEffect
    ensures { result ≡ LaneEffect.Jump rd (address_at pc 4) target }
{
    let link = pc.wrapping_add(4);
    LaneEffect::Jump { rd, link, target }
}

/// Whether the first word is less as a signed number.
fn is_less(a: u32, b: u32) -> bool
    ensures { result ≡ is_less a b }
{
    alu_value(Alu::Slt, a, b) == 1
}
