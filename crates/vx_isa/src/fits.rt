ghost use Rattle.std.specs.Prelude.{◌≡◌};
ghost use Rattle.vx_isa.specs.Words.{are_registers, fits_branch, fits_of, fits_signed, fits_upper, is_csr, is_place, is_register, is_signed};

use crate::instr::Instr;

impl Instr {
    /// Whether each operand is in its row's range, so that a word spells the instruction.
    ///
    /// Registers and shift amounts are below 32, the sets of `fence` below 16, and the immediate of `lui` and `auipc` below
    /// 2^20. Other immediates are signed numbers of 12 bits. A place is even: a signed number of 13 bits in a branch, and of
    /// 21 in `jal`. The control registers are 0xcc0, 0xcc1, 0xcc2 and 0xcc4.
    pub fn fits(&self) -> bool
        ensures { result ≡ fits_of self.now }
    {
        match *self {
            Instr::Lui { rd, imm } | Instr::Auipc { rd, imm } => fits_upper(rd, imm),
            Instr::Jal { rd, place } => is_register(rd) && is_place_of_jump(place),
            Instr::Beq { rs1, rs2, place }
            | Instr::Bne { rs1, rs2, place }
            | Instr::Blt { rs1, rs2, place }
            | Instr::Bge { rs1, rs2, place }
            | Instr::Bltu { rs1, rs2, place }
            | Instr::Bgeu { rs1, rs2, place } => fits_branch(rs1, rs2, place),
            Instr::Sb { rs2, imm, rs1 }
            | Instr::Sh { rs2, imm, rs1 }
            | Instr::Sw { rs2, imm, rs1 } => fits_signed(rs1, rs2, imm),
            Instr::Jalr { rd, imm, rs1 }
            | Instr::Lb { rd, imm, rs1 }
            | Instr::Lh { rd, imm, rs1 }
            | Instr::Lw { rd, imm, rs1 }
            | Instr::Lbu { rd, imm, rs1 }
            | Instr::Lhu { rd, imm, rs1 }
            | Instr::Addi { rd, rs1, imm }
            | Instr::Slti { rd, rs1, imm }
            | Instr::Sltiu { rd, rs1, imm }
            | Instr::Xori { rd, rs1, imm }
            | Instr::Ori { rd, rs1, imm }
            | Instr::Andi { rd, rs1, imm } => fits_signed(rd, rs1, imm),
            Instr::Slli { rd, rs1, amount }
            | Instr::Srli { rd, rs1, amount }
            | Instr::Srai { rd, rs1, amount } => are_registers(rd, rs1, amount),
            Instr::Add { rd, rs1, rs2 }
            | Instr::Sub { rd, rs1, rs2 }
            | Instr::Sll { rd, rs1, rs2 }
            | Instr::Slt { rd, rs1, rs2 }
            | Instr::Sltu { rd, rs1, rs2 }
            | Instr::Xor { rd, rs1, rs2 }
            | Instr::Srl { rd, rs1, rs2 }
            | Instr::Sra { rd, rs1, rs2 }
            | Instr::Or { rd, rs1, rs2 }
            | Instr::And { rd, rs1, rs2 }
            | Instr::Mul { rd, rs1, rs2 }
            | Instr::Mulh { rd, rs1, rs2 }
            | Instr::Mulhsu { rd, rs1, rs2 }
            | Instr::Mulhu { rd, rs1, rs2 }
            | Instr::Div { rd, rs1, rs2 }
            | Instr::Divu { rd, rs1, rs2 }
            | Instr::Rem { rd, rs1, rs2 }
            | Instr::Remu { rd, rs1, rs2 } => are_registers(rd, rs1, rs2),
            Instr::Fence { before, after } => before < 16 && after < 16,
            Instr::Ebreak | Instr::Join => true,
            Instr::Csrr { rd, csr } => is_register(rd) && is_csr(csr),
            Instr::Tmc { rs1 } | Instr::Split { rs1 } => is_register(rs1),
            Instr::Wspawn { rs1, rs2 } | Instr::Bar { rs1, rs2 } | Instr::Pred { rs1, rs2 } => {
                is_register(rs1) && is_register(rs2)
            }
        }
    }
}

/// Whether a number names a register.
fn is_register(n: u32) -> bool
    ensures { result ≡ is_register n }
{
    n < 32
}

/// Whether three numbers are below 32: registers, or two registers and a shift amount.
fn are_registers(rd: u32, rs1: u32, rs2: u32) -> bool
    ensures { result ≡ are_registers rd rs1 rs2 }
{
    is_register(rd) && is_register(rs1) && is_register(rs2)
}

/// Whether a word is the signed immediate of 12 bits that an instruction with two registers has.
fn fits_signed(first: u32, second: u32, imm: u32) -> bool
    ensures { result ≡ fits_signed first second imm }
{
    is_register(first) && is_register(second) && is_immediate(imm)
}

/// Whether a word stands for a signed number of 12 bits.
fn is_immediate(imm: u32) -> bool
    ensures { result ≡ is_signed 12 imm }
{
    imm < 0x800 || imm >= 0xffff_f800
}

/// Whether the registers and the place of a branch are in range.
fn fits_branch(rs1: u32, rs2: u32, place: u32) -> bool
    ensures { result ≡ fits_branch rs1 rs2 place }
{
    is_register(rs1) && is_register(rs2) && is_place_of_branch(place)
}

/// Whether a word is an even distance of 13 bits.
fn is_place_of_branch(place: u32) -> bool
    ensures { result ≡ is_place 13 place }
{
    (place < 0x1000 || place >= 0xffff_f000) && place % 2 == 0
}

/// Whether a word is an even distance of 21 bits.
fn is_place_of_jump(place: u32) -> bool
    ensures { result ≡ is_place 21 place }
{
    (place < 0x10_0000 || place >= 0xfff0_0000) && place % 2 == 0
}

/// Whether a register and an immediate of the upper 20 bits are in range.
fn fits_upper(rd: u32, imm: u32) -> bool
    ensures { result ≡ fits_upper rd imm }
{
    is_register(rd) && imm < 0x10_0000
}

/// Whether a number names a control register of the machine.
fn is_csr(csr: u32) -> bool
    ensures { result ≡ is_csr csr }
{
    matches!(csr, 0xcc0 | 0xcc1 | 0xcc2 | 0xcc4)
}
