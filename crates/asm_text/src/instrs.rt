//! The instruction that a mnemonic and its operands make, and back.
ghost use Rattle.std.specs.Prelude.{◌≡◌, Some, None};
ghost use Rattle.asm_text.specs.Mnemonics.{instr_of, mnemonic_of, operands_of, with_operand};

use crate::mnemonics::{Mnemonic, Operands};
use vx_isa::Instr;

impl Mnemonic {
    /// The instruction with these operands. `.word` is none.
    pub fn instr(self, operands: Operands) -> Option<Instr>
        ensures { result ≡ instr_of self operands }
    {
        let Operands {
            first,
            second,
            third,
        } = operands;
        Some(match self {
            Mnemonic::Lui => Instr::Lui {
                rd: second,
                imm: third,
            },
            Mnemonic::Auipc => Instr::Auipc {
                rd: second,
                imm: third,
            },
            Mnemonic::Jal => Instr::Jal {
                rd: second,
                place: third,
            },
            Mnemonic::Jalr => Instr::Jalr {
                rd: first,
                imm: second,
                rs1: third,
            },
            Mnemonic::Beq => Instr::Beq {
                rs1: first,
                rs2: second,
                place: third,
            },
            Mnemonic::Bne => Instr::Bne {
                rs1: first,
                rs2: second,
                place: third,
            },
            Mnemonic::Blt => Instr::Blt {
                rs1: first,
                rs2: second,
                place: third,
            },
            Mnemonic::Bge => Instr::Bge {
                rs1: first,
                rs2: second,
                place: third,
            },
            Mnemonic::Bltu => Instr::Bltu {
                rs1: first,
                rs2: second,
                place: third,
            },
            Mnemonic::Bgeu => Instr::Bgeu {
                rs1: first,
                rs2: second,
                place: third,
            },
            Mnemonic::Lb => Instr::Lb {
                rd: first,
                imm: second,
                rs1: third,
            },
            Mnemonic::Lh => Instr::Lh {
                rd: first,
                imm: second,
                rs1: third,
            },
            Mnemonic::Lw => Instr::Lw {
                rd: first,
                imm: second,
                rs1: third,
            },
            Mnemonic::Lbu => Instr::Lbu {
                rd: first,
                imm: second,
                rs1: third,
            },
            Mnemonic::Lhu => Instr::Lhu {
                rd: first,
                imm: second,
                rs1: third,
            },
            Mnemonic::Sb => Instr::Sb {
                rs2: first,
                imm: second,
                rs1: third,
            },
            Mnemonic::Sh => Instr::Sh {
                rs2: first,
                imm: second,
                rs1: third,
            },
            Mnemonic::Sw => Instr::Sw {
                rs2: first,
                imm: second,
                rs1: third,
            },
            Mnemonic::Addi => Instr::Addi {
                rd: first,
                rs1: second,
                imm: third,
            },
            Mnemonic::Slti => Instr::Slti {
                rd: first,
                rs1: second,
                imm: third,
            },
            Mnemonic::Sltiu => Instr::Sltiu {
                rd: first,
                rs1: second,
                imm: third,
            },
            Mnemonic::Xori => Instr::Xori {
                rd: first,
                rs1: second,
                imm: third,
            },
            Mnemonic::Ori => Instr::Ori {
                rd: first,
                rs1: second,
                imm: third,
            },
            Mnemonic::Andi => Instr::Andi {
                rd: first,
                rs1: second,
                imm: third,
            },
            Mnemonic::Slli => Instr::Slli {
                rd: first,
                rs1: second,
                amount: third,
            },
            Mnemonic::Srli => Instr::Srli {
                rd: first,
                rs1: second,
                amount: third,
            },
            Mnemonic::Srai => Instr::Srai {
                rd: first,
                rs1: second,
                amount: third,
            },
            Mnemonic::Add => Instr::Add {
                rd: first,
                rs1: second,
                rs2: third,
            },
            Mnemonic::Sub => Instr::Sub {
                rd: first,
                rs1: second,
                rs2: third,
            },
            Mnemonic::Sll => Instr::Sll {
                rd: first,
                rs1: second,
                rs2: third,
            },
            Mnemonic::Slt => Instr::Slt {
                rd: first,
                rs1: second,
                rs2: third,
            },
            Mnemonic::Sltu => Instr::Sltu {
                rd: first,
                rs1: second,
                rs2: third,
            },
            Mnemonic::Xor => Instr::Xor {
                rd: first,
                rs1: second,
                rs2: third,
            },
            Mnemonic::Srl => Instr::Srl {
                rd: first,
                rs1: second,
                rs2: third,
            },
            Mnemonic::Sra => Instr::Sra {
                rd: first,
                rs1: second,
                rs2: third,
            },
            Mnemonic::Or => Instr::Or {
                rd: first,
                rs1: second,
                rs2: third,
            },
            Mnemonic::And => Instr::And {
                rd: first,
                rs1: second,
                rs2: third,
            },
            Mnemonic::Mul => Instr::Mul {
                rd: first,
                rs1: second,
                rs2: third,
            },
            Mnemonic::Mulh => Instr::Mulh {
                rd: first,
                rs1: second,
                rs2: third,
            },
            Mnemonic::Mulhsu => Instr::Mulhsu {
                rd: first,
                rs1: second,
                rs2: third,
            },
            Mnemonic::Mulhu => Instr::Mulhu {
                rd: first,
                rs1: second,
                rs2: third,
            },
            Mnemonic::Div => Instr::Div {
                rd: first,
                rs1: second,
                rs2: third,
            },
            Mnemonic::Divu => Instr::Divu {
                rd: first,
                rs1: second,
                rs2: third,
            },
            Mnemonic::Rem => Instr::Rem {
                rd: first,
                rs1: second,
                rs2: third,
            },
            Mnemonic::Remu => Instr::Remu {
                rd: first,
                rs1: second,
                rs2: third,
            },
            Mnemonic::Fence => Instr::Fence {
                before: second,
                after: third,
            },
            Mnemonic::Ebreak => Instr::Ebreak,
            Mnemonic::Csrr => Instr::Csrr {
                rd: second,
                csr: third,
            },
            Mnemonic::Tmc => Instr::Tmc { rs1: third },
            Mnemonic::Wspawn => Instr::Wspawn {
                rs1: second,
                rs2: third,
            },
            Mnemonic::Split => Instr::Split { rs1: third },
            Mnemonic::Join => Instr::Join,
            Mnemonic::Bar => Instr::Bar {
                rs1: second,
                rs2: third,
            },
            Mnemonic::Pred => Instr::Pred {
                rs1: second,
                rs2: third,
            },
            Mnemonic::Word => return None,
        })
    }

    /// The mnemonic of an instruction.
    pub fn of(instr: Instr) -> Mnemonic
        ensures { result ≡ mnemonic_of instr }
    {
        match instr {
            Instr::Lui { .. } => Mnemonic::Lui,
            Instr::Auipc { .. } => Mnemonic::Auipc,
            Instr::Jal { .. } => Mnemonic::Jal,
            Instr::Jalr { .. } => Mnemonic::Jalr,
            Instr::Beq { .. } => Mnemonic::Beq,
            Instr::Bne { .. } => Mnemonic::Bne,
            Instr::Blt { .. } => Mnemonic::Blt,
            Instr::Bge { .. } => Mnemonic::Bge,
            Instr::Bltu { .. } => Mnemonic::Bltu,
            Instr::Bgeu { .. } => Mnemonic::Bgeu,
            Instr::Lb { .. } => Mnemonic::Lb,
            Instr::Lh { .. } => Mnemonic::Lh,
            Instr::Lw { .. } => Mnemonic::Lw,
            Instr::Lbu { .. } => Mnemonic::Lbu,
            Instr::Lhu { .. } => Mnemonic::Lhu,
            Instr::Sb { .. } => Mnemonic::Sb,
            Instr::Sh { .. } => Mnemonic::Sh,
            Instr::Sw { .. } => Mnemonic::Sw,
            Instr::Addi { .. } => Mnemonic::Addi,
            Instr::Slti { .. } => Mnemonic::Slti,
            Instr::Sltiu { .. } => Mnemonic::Sltiu,
            Instr::Xori { .. } => Mnemonic::Xori,
            Instr::Ori { .. } => Mnemonic::Ori,
            Instr::Andi { .. } => Mnemonic::Andi,
            Instr::Slli { .. } => Mnemonic::Slli,
            Instr::Srli { .. } => Mnemonic::Srli,
            Instr::Srai { .. } => Mnemonic::Srai,
            Instr::Add { .. } => Mnemonic::Add,
            Instr::Sub { .. } => Mnemonic::Sub,
            Instr::Sll { .. } => Mnemonic::Sll,
            Instr::Slt { .. } => Mnemonic::Slt,
            Instr::Sltu { .. } => Mnemonic::Sltu,
            Instr::Xor { .. } => Mnemonic::Xor,
            Instr::Srl { .. } => Mnemonic::Srl,
            Instr::Sra { .. } => Mnemonic::Sra,
            Instr::Or { .. } => Mnemonic::Or,
            Instr::And { .. } => Mnemonic::And,
            Instr::Mul { .. } => Mnemonic::Mul,
            Instr::Mulh { .. } => Mnemonic::Mulh,
            Instr::Mulhsu { .. } => Mnemonic::Mulhsu,
            Instr::Mulhu { .. } => Mnemonic::Mulhu,
            Instr::Div { .. } => Mnemonic::Div,
            Instr::Divu { .. } => Mnemonic::Divu,
            Instr::Rem { .. } => Mnemonic::Rem,
            Instr::Remu { .. } => Mnemonic::Remu,
            Instr::Fence { .. } => Mnemonic::Fence,
            Instr::Ebreak => Mnemonic::Ebreak,
            Instr::Csrr { .. } => Mnemonic::Csrr,
            Instr::Tmc { .. } => Mnemonic::Tmc,
            Instr::Wspawn { .. } => Mnemonic::Wspawn,
            Instr::Split { .. } => Mnemonic::Split,
            Instr::Join => Mnemonic::Join,
            Instr::Bar { .. } => Mnemonic::Bar,
            Instr::Pred { .. } => Mnemonic::Pred,
        }
    }
}

impl Operands {
    /// The operands of an instruction.
    pub fn of(instr: Instr) -> Operands
        ensures { result ≡ operands_of instr }
    {
        match instr {
            Instr::Lui { rd, imm } => last_three(0, rd, imm),
            Instr::Auipc { rd, imm } => last_three(0, rd, imm),
            Instr::Jal { rd, place } => last_three(0, rd, place),
            Instr::Jalr { rd, imm, rs1 } => last_three(rd, imm, rs1),
            Instr::Beq { rs1, rs2, place } => last_three(rs1, rs2, place),
            Instr::Bne { rs1, rs2, place } => last_three(rs1, rs2, place),
            Instr::Blt { rs1, rs2, place } => last_three(rs1, rs2, place),
            Instr::Bge { rs1, rs2, place } => last_three(rs1, rs2, place),
            Instr::Bltu { rs1, rs2, place } => last_three(rs1, rs2, place),
            Instr::Bgeu { rs1, rs2, place } => last_three(rs1, rs2, place),
            Instr::Lb { rd, imm, rs1 } => last_three(rd, imm, rs1),
            Instr::Lh { rd, imm, rs1 } => last_three(rd, imm, rs1),
            Instr::Lw { rd, imm, rs1 } => last_three(rd, imm, rs1),
            Instr::Lbu { rd, imm, rs1 } => last_three(rd, imm, rs1),
            Instr::Lhu { rd, imm, rs1 } => last_three(rd, imm, rs1),
            Instr::Sb { rs2, imm, rs1 } => last_three(rs2, imm, rs1),
            Instr::Sh { rs2, imm, rs1 } => last_three(rs2, imm, rs1),
            Instr::Sw { rs2, imm, rs1 } => last_three(rs2, imm, rs1),
            Instr::Addi { rd, rs1, imm } => last_three(rd, rs1, imm),
            Instr::Slti { rd, rs1, imm } => last_three(rd, rs1, imm),
            Instr::Sltiu { rd, rs1, imm } => last_three(rd, rs1, imm),
            Instr::Xori { rd, rs1, imm } => last_three(rd, rs1, imm),
            Instr::Ori { rd, rs1, imm } => last_three(rd, rs1, imm),
            Instr::Andi { rd, rs1, imm } => last_three(rd, rs1, imm),
            Instr::Slli { rd, rs1, amount } => last_three(rd, rs1, amount),
            Instr::Srli { rd, rs1, amount } => last_three(rd, rs1, amount),
            Instr::Srai { rd, rs1, amount } => last_three(rd, rs1, amount),
            Instr::Add { rd, rs1, rs2 } => last_three(rd, rs1, rs2),
            Instr::Sub { rd, rs1, rs2 } => last_three(rd, rs1, rs2),
            Instr::Sll { rd, rs1, rs2 } => last_three(rd, rs1, rs2),
            Instr::Slt { rd, rs1, rs2 } => last_three(rd, rs1, rs2),
            Instr::Sltu { rd, rs1, rs2 } => last_three(rd, rs1, rs2),
            Instr::Xor { rd, rs1, rs2 } => last_three(rd, rs1, rs2),
            Instr::Srl { rd, rs1, rs2 } => last_three(rd, rs1, rs2),
            Instr::Sra { rd, rs1, rs2 } => last_three(rd, rs1, rs2),
            Instr::Or { rd, rs1, rs2 } => last_three(rd, rs1, rs2),
            Instr::And { rd, rs1, rs2 } => last_three(rd, rs1, rs2),
            Instr::Mul { rd, rs1, rs2 } => last_three(rd, rs1, rs2),
            Instr::Mulh { rd, rs1, rs2 } => last_three(rd, rs1, rs2),
            Instr::Mulhsu { rd, rs1, rs2 } => last_three(rd, rs1, rs2),
            Instr::Mulhu { rd, rs1, rs2 } => last_three(rd, rs1, rs2),
            Instr::Div { rd, rs1, rs2 } => last_three(rd, rs1, rs2),
            Instr::Divu { rd, rs1, rs2 } => last_three(rd, rs1, rs2),
            Instr::Rem { rd, rs1, rs2 } => last_three(rd, rs1, rs2),
            Instr::Remu { rd, rs1, rs2 } => last_three(rd, rs1, rs2),
            Instr::Fence { before, after } => last_three(0, before, after),
            Instr::Ebreak => last_three(0, 0, 0),
            Instr::Csrr { rd, csr } => last_three(0, rd, csr),
            Instr::Tmc { rs1 } => last_three(0, 0, rs1),
            Instr::Wspawn { rs1, rs2 } => last_three(0, rs1, rs2),
            Instr::Split { rs1 } => last_three(0, 0, rs1),
            Instr::Join => last_three(0, 0, 0),
            Instr::Bar { rs1, rs2 } => last_three(0, rs1, rs2),
            Instr::Pred { rs1, rs2 } => last_three(0, rs1, rs2),
        }
    }

    /// These operands and one more.
    pub fn with(self, value: u32) -> Operands
        ensures { result ≡ with_operand self value }
    {
        last_three(self.second, self.third, value)
    }
}

fn last_three(first: u32, second: u32, third: u32) -> Operands
    ensures { result ≡ record { first = first; second = second; third = third } }
{
    Operands {
        first,
        second,
        third,
    }
}
