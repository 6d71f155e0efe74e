use vx_base::Size;

/// An instruction, with its operands in the order of the assembly text.
///
/// `rd`, `rs1` and `rs2` are registers, 0 to 31. An immediate is kept as the 32-bit word that a lane computes with:
/// where its field is signed, it is extended by its sign, so -4 is 0xfffffffc. `place` is the distance in bytes from
/// this instruction, as such a word. The rows are those of the RISC-V unprivileged manual (chapters RV32I, M and
/// Zicsr's `csrr`), and the warp instructions are this project's own.
#[derive(Clone, Copy, Debug, PartialEq, Eq)]
pub enum Instr {
    /// Writes imm, 0 to 0xfffff, times 2^12.
    Lui { rd: u32, imm: u32 },
    /// Writes the pc plus imm, 0 to 0xfffff, times 2^12.
    Auipc { rd: u32, imm: u32 },
    /// Writes pc + 4 and goes to pc + place.
    Jal { rd: u32, place: u32 },
    /// Writes pc + 4 and goes to rs1 + imm with bit 0 cleared.
    Jalr { rd: u32, imm: u32, rs1: u32 },
    /// Goes to pc + place where rs1 equals rs2.
    Beq { rs1: u32, rs2: u32, place: u32 },
    /// Goes to pc + place where rs1 does not equal rs2.
    Bne { rs1: u32, rs2: u32, place: u32 },
    /// Goes to pc + place where rs1 is less than rs2 as signed numbers.
    Blt { rs1: u32, rs2: u32, place: u32 },
    /// Goes to pc + place where rs1 is not less than rs2 as signed numbers.
    Bge { rs1: u32, rs2: u32, place: u32 },
    /// Goes to pc + place where rs1 is less than rs2 as unsigned numbers.
    Bltu { rs1: u32, rs2: u32, place: u32 },
    /// Goes to pc + place where rs1 is not less than rs2 as unsigned numbers.
    Bgeu { rs1: u32, rs2: u32, place: u32 },
    /// Loads a byte, extended by its sign, at rs1 + imm.
    Lb { rd: u32, imm: u32, rs1: u32 },
    /// Loads two bytes, extended by their sign, at rs1 + imm.
    Lh { rd: u32, imm: u32, rs1: u32 },
    /// Loads four bytes, at rs1 + imm.
    Lw { rd: u32, imm: u32, rs1: u32 },
    /// Loads a byte, extended by zeros, at rs1 + imm.
    Lbu { rd: u32, imm: u32, rs1: u32 },
    /// Loads two bytes, extended by zeros, at rs1 + imm.
    Lhu { rd: u32, imm: u32, rs1: u32 },
    /// Stores the low byte of rs2 at rs1 + imm.
    Sb { rs2: u32, imm: u32, rs1: u32 },
    /// Stores the low two bytes of rs2 at rs1 + imm.
    Sh { rs2: u32, imm: u32, rs1: u32 },
    /// Stores rs2 at rs1 + imm.
    Sw { rs2: u32, imm: u32, rs1: u32 },
    /// Writes rs1 + imm.
    Addi { rd: u32, rs1: u32, imm: u32 },
    /// Writes 1 where rs1 is less than imm as signed numbers, else 0.
    Slti { rd: u32, rs1: u32, imm: u32 },
    /// Writes 1 where rs1 is less than imm as unsigned numbers, else 0.
    Sltiu { rd: u32, rs1: u32, imm: u32 },
    /// Writes rs1 exclusive or imm.
    Xori { rd: u32, rs1: u32, imm: u32 },
    /// Writes rs1 or imm.
    Ori { rd: u32, rs1: u32, imm: u32 },
    /// Writes rs1 and imm.
    Andi { rd: u32, rs1: u32, imm: u32 },
    /// Writes rs1 shifted left by the amount, 0 to 31.
    Slli { rd: u32, rs1: u32, amount: u32 },
    /// Writes rs1 shifted right by the amount, filled with zeros, 0 to 31.
    Srli { rd: u32, rs1: u32, amount: u32 },
    /// Writes rs1 shifted right by the amount, filled with the sign, 0 to 31.
    Srai { rd: u32, rs1: u32, amount: u32 },
    /// Writes the low 32 bits of rs1 + rs2.
    Add { rd: u32, rs1: u32, rs2: u32 },
    /// Writes the low 32 bits of rs1 - rs2.
    Sub { rd: u32, rs1: u32, rs2: u32 },
    /// Writes rs1 shifted left by the low five bits of rs2.
    Sll { rd: u32, rs1: u32, rs2: u32 },
    /// Writes 1 where rs1 is less than rs2 as signed numbers, else 0.
    Slt { rd: u32, rs1: u32, rs2: u32 },
    /// Writes 1 where rs1 is less than rs2 as unsigned numbers, else 0.
    Sltu { rd: u32, rs1: u32, rs2: u32 },
    /// Writes rs1 exclusive or rs2.
    Xor { rd: u32, rs1: u32, rs2: u32 },
    /// Writes rs1 shifted right by the low five bits of rs2, filled with zeros.
    Srl { rd: u32, rs1: u32, rs2: u32 },
    /// Writes rs1 shifted right by the low five bits of rs2, filled with the sign.
    Sra { rd: u32, rs1: u32, rs2: u32 },
    /// Writes rs1 or rs2.
    Or { rd: u32, rs1: u32, rs2: u32 },
    /// Writes rs1 and rs2.
    And { rd: u32, rs1: u32, rs2: u32 },
    /// Writes the low 32 bits of rs1 * rs2.
    Mul { rd: u32, rs1: u32, rs2: u32 },
    /// Writes the high 32 bits of rs1 * rs2, both signed.
    Mulh { rd: u32, rs1: u32, rs2: u32 },
    /// Writes the high 32 bits of rs1 * rs2, signed by unsigned.
    Mulhsu { rd: u32, rs1: u32, rs2: u32 },
    /// Writes the high 32 bits of rs1 * rs2, both unsigned.
    Mulhu { rd: u32, rs1: u32, rs2: u32 },
    /// Writes rs1 / rs2, signed, toward zero.
    Div { rd: u32, rs1: u32, rs2: u32 },
    /// Writes rs1 / rs2, unsigned.
    Divu { rd: u32, rs1: u32, rs2: u32 },
    /// Writes the remainder of rs1 / rs2, signed.
    Rem { rd: u32, rs1: u32, rs2: u32 },
    /// Writes the remainder of rs1 / rs2, unsigned.
    Remu { rd: u32, rs1: u32, rs2: u32 },
    /// Orders memory accesses: a step without effect here. Both sets are 0 to 15.
    Fence { before: u32, after: u32 },
    /// Stops the lane at a failed check.
    Ebreak,
    /// Writes a number of the lane: 0xcc0 lane, 0xcc1 warp, 0xcc2 core, 0xcc4 mask.
    Csrr { rd: u32, csr: u32 },
    /// Sets the warp's mask from rs1; mask 0 ends the warp.
    Tmc { rs1: u32 },
    /// Starts the warps 1 to rs1 - 1 at rs2.
    Wspawn { rs1: u32, rs2: u32 },
    /// Goes on with the lanes whose rs1 is not 0, and keeps the others for `join`.
    Split { rs1: u32 },
    /// Goes back to the lanes that the last `split` kept.
    Join,
    /// Waits at barrier rs1 until rs2 warps wait there.
    Bar { rs1: u32, rs2: u32 },
    /// Keeps the lanes whose rs1 is not 0; where there is none, the mask becomes rs2.
    Pred { rs1: u32, rs2: u32 },
}

/// What one lane does at an instruction.
#[derive(Clone, Copy, Debug, PartialEq, Eq)]
pub enum LaneEffect {
    /// The register gets the value.
    Write {
        rd: u32,
        value: u32,
    },
    /// The register gets the field at the address, extended to 32 bits by its sign or by zeros.
    Load {
        rd: u32,
        address: u32,
        size: Size,
        signed: bool,
    },
    /// The field at the address gets the low bytes of the value.
    Store {
        address: u32,
        size: Size,
        value: u32,
    },
    /// The lane goes to the target where the branch is taken, and else on.
    Branch {
        taken: bool,
        target: u32,
    },
    /// The register gets the link, and the lane goes to the target.
    Jump {
        rd: u32,
        link: u32,
        target: u32,
    },
    /// The register gets a number of the lane, its warp or its core.
    Csr {
        rd: u32,
        csr: u32,
    },
    /// The lane stops at a failed check.
    Break,
    /// The whole warp acts.
    Warp,
    /// Nothing happens.
    Nothing,
}
