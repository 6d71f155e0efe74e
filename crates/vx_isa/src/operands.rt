ghost use Rattle.std.specs.Prelude.{◌≡◌};
ghost use Rattle.vx_isa.specs.Operands.{rs1_of, rs2_of};

use crate::instr::Instr;

impl Instr {
    /// The register that the instruction reads first, and x0 where it reads none.
    pub fn rs1(self) -> u32
        ensures { result ≡ rs1_of self }
    {
        match self {
            Instr::Jalr { rs1, .. }
            | Instr::Beq { rs1, .. }
            | Instr::Bne { rs1, .. }
            | Instr::Blt { rs1, .. }
            | Instr::Bge { rs1, .. }
            | Instr::Bltu { rs1, .. }
            | Instr::Bgeu { rs1, .. }
            | Instr::Lb { rs1, .. }
            | Instr::Lh { rs1, .. }
            | Instr::Lw { rs1, .. }
            | Instr::Lbu { rs1, .. }
            | Instr::Lhu { rs1, .. }
            | Instr::Sb { rs1, .. }
            | Instr::Sh { rs1, .. }
            | Instr::Sw { rs1, .. }
            | Instr::Addi { rs1, .. }
            | Instr::Slti { rs1, .. }
            | Instr::Sltiu { rs1, .. }
            | Instr::Xori { rs1, .. }
            | Instr::Ori { rs1, .. }
            | Instr::Andi { rs1, .. }
            | Instr::Slli { rs1, .. }
            | Instr::Srli { rs1, .. }
            | Instr::Srai { rs1, .. }
            | Instr::Add { rs1, .. }
            | Instr::Sub { rs1, .. }
            | Instr::Sll { rs1, .. }
            | Instr::Slt { rs1, .. }
            | Instr::Sltu { rs1, .. }
            | Instr::Xor { rs1, .. }
            | Instr::Srl { rs1, .. }
            | Instr::Sra { rs1, .. }
            | Instr::Or { rs1, .. }
            | Instr::And { rs1, .. }
            | Instr::Mul { rs1, .. }
            | Instr::Mulh { rs1, .. }
            | Instr::Mulhsu { rs1, .. }
            | Instr::Mulhu { rs1, .. }
            | Instr::Div { rs1, .. }
            | Instr::Divu { rs1, .. }
            | Instr::Rem { rs1, .. }
            | Instr::Remu { rs1, .. }
            | Instr::Tmc { rs1 }
            | Instr::Wspawn { rs1, .. }
            | Instr::Split { rs1 }
            | Instr::Bar { rs1, .. }
            | Instr::Pred { rs1, .. } => rs1,
            Instr::Lui { .. }
            | Instr::Auipc { .. }
            | Instr::Jal { .. }
            | Instr::Fence { .. }
            | Instr::Ebreak
            | Instr::Csrr { .. }
            | Instr::Join => 0,
        }
    }

    /// The register that the instruction reads second, and x0 where it reads no second one.
    pub fn rs2(self) -> u32
        ensures { result ≡ rs2_of self }
    {
        match self {
            Instr::Beq { rs2, .. }
            | Instr::Bne { rs2, .. }
            | Instr::Blt { rs2, .. }
            | Instr::Bge { rs2, .. }
            | Instr::Bltu { rs2, .. }
            | Instr::Bgeu { rs2, .. }
            | Instr::Sb { rs2, .. }
            | Instr::Sh { rs2, .. }
            | Instr::Sw { rs2, .. }
            | Instr::Add { rs2, .. }
            | Instr::Sub { rs2, .. }
            | Instr::Sll { rs2, .. }
            | Instr::Slt { rs2, .. }
            | Instr::Sltu { rs2, .. }
            | Instr::Xor { rs2, .. }
            | Instr::Srl { rs2, .. }
            | Instr::Sra { rs2, .. }
            | Instr::Or { rs2, .. }
            | Instr::And { rs2, .. }
            | Instr::Mul { rs2, .. }
            | Instr::Mulh { rs2, .. }
            | Instr::Mulhsu { rs2, .. }
            | Instr::Mulhu { rs2, .. }
            | Instr::Div { rs2, .. }
            | Instr::Divu { rs2, .. }
            | Instr::Rem { rs2, .. }
            | Instr::Remu { rs2, .. }
            | Instr::Wspawn { rs2, .. }
            | Instr::Bar { rs2, .. }
            | Instr::Pred { rs2, .. } => rs2,
            Instr::Lui { .. }
            | Instr::Auipc { .. }
            | Instr::Jal { .. }
            | Instr::Jalr { .. }
            | Instr::Lb { .. }
            | Instr::Lh { .. }
            | Instr::Lw { .. }
            | Instr::Lbu { .. }
            | Instr::Lhu { .. }
            | Instr::Addi { .. }
            | Instr::Slti { .. }
            | Instr::Sltiu { .. }
            | Instr::Xori { .. }
            | Instr::Ori { .. }
            | Instr::Andi { .. }
            | Instr::Slli { .. }
            | Instr::Srli { .. }
            | Instr::Srai { .. }
            | Instr::Fence { .. }
            | Instr::Ebreak
            | Instr::Csrr { .. }
            | Instr::Tmc { .. }
            | Instr::Split { .. }
            | Instr::Join => 0,
        }
    }
}
