//! The names of instructions, and what stands behind each.
ghost use Rattle.std.specs.Prelude.{◌≡◌};
ghost use Rattle.asm_text.specs.Mnemonics.{form_of, name_of, parts_of};

/// What the first word of a statement says: the instruction, or `.word`.
#[derive(Clone, Copy, Debug, PartialEq, Eq)]
pub enum Mnemonic {
    /// `lui rd, number`.
    Lui,
    /// `auipc rd, number`.
    Auipc,
    /// `jal rd, place`.
    Jal,
    /// `jalr rd, number(rs1)`.
    Jalr,
    /// `beq rs1, rs2, place`.
    Beq,
    /// `bne rs1, rs2, place`.
    Bne,
    /// `blt rs1, rs2, place`.
    Blt,
    /// `bge rs1, rs2, place`.
    Bge,
    /// `bltu rs1, rs2, place`.
    Bltu,
    /// `bgeu rs1, rs2, place`.
    Bgeu,
    /// `lb rd, number(rs1)`.
    Lb,
    /// `lh rd, number(rs1)`.
    Lh,
    /// `lw rd, number(rs1)`.
    Lw,
    /// `lbu rd, number(rs1)`.
    Lbu,
    /// `lhu rd, number(rs1)`.
    Lhu,
    /// `sb rs2, number(rs1)`.
    Sb,
    /// `sh rs2, number(rs1)`.
    Sh,
    /// `sw rs2, number(rs1)`.
    Sw,
    /// `addi rd, rs1, number`.
    Addi,
    /// `slti rd, rs1, number`.
    Slti,
    /// `sltiu rd, rs1, number`.
    Sltiu,
    /// `xori rd, rs1, number`.
    Xori,
    /// `ori rd, rs1, number`.
    Ori,
    /// `andi rd, rs1, number`.
    Andi,
    /// `slli rd, rs1, number`.
    Slli,
    /// `srli rd, rs1, number`.
    Srli,
    /// `srai rd, rs1, number`.
    Srai,
    /// `add rd, rs1, rs2`.
    Add,
    /// `sub rd, rs1, rs2`.
    Sub,
    /// `sll rd, rs1, rs2`.
    Sll,
    /// `slt rd, rs1, rs2`.
    Slt,
    /// `sltu rd, rs1, rs2`.
    Sltu,
    /// `xor rd, rs1, rs2`.
    Xor,
    /// `srl rd, rs1, rs2`.
    Srl,
    /// `sra rd, rs1, rs2`.
    Sra,
    /// `or rd, rs1, rs2`.
    Or,
    /// `and rd, rs1, rs2`.
    And,
    /// `mul rd, rs1, rs2`.
    Mul,
    /// `mulh rd, rs1, rs2`.
    Mulh,
    /// `mulhsu rd, rs1, rs2`.
    Mulhsu,
    /// `mulhu rd, rs1, rs2`.
    Mulhu,
    /// `div rd, rs1, rs2`.
    Div,
    /// `divu rd, rs1, rs2`.
    Divu,
    /// `rem rd, rs1, rs2`.
    Rem,
    /// `remu rd, rs1, rs2`.
    Remu,
    /// `fence number, number`.
    Fence,
    /// `ebreak`.
    Ebreak,
    /// `csrr rd, number`.
    Csrr,
    /// `tmc rs1`.
    Tmc,
    /// `wspawn rs1, rs2`.
    Wspawn,
    /// `split rs1`.
    Split,
    /// `join`.
    Join,
    /// `bar rs1, rs2`.
    Bar,
    /// `pred rs1, rs2`.
    Pred,
    /// `.word number`.
    Word,
}

/// What may stand behind a mnemonic.
#[derive(Clone, Copy, Debug, PartialEq, Eq)]
pub enum Form {
    /// Three registers.
    ThreeRegisters,
    /// Two registers and a signed number of 12 bits.
    Immediate,
    /// Two registers and an amount below 32.
    Shift,
    /// A register, and an address: a signed number of 12 bits and a register in parentheses.
    Memory,
    /// Two registers and a place in reach of a branch.
    Branch,
    /// A register and a number of 20 bits.
    Upper,
    /// A register and a place in reach of a jump.
    Jump,
    /// Two numbers of four bits.
    Fence,
    /// A register and the number of a control register.
    Csr,
    /// One register.
    OneRegister,
    /// Two registers.
    TwoRegisters,
    /// Nothing.
    Bare,
    /// A number of 32 bits.
    Word,
}

/// What a number has to fit.
#[derive(Clone, Copy, Debug, PartialEq, Eq)]
pub enum Field {
    /// A signed number of 12 bits.
    Immediate,
    /// An amount, 0 to 31.
    Amount,
    /// 0 to 0xfffff.
    Upper,
    /// A set of kinds of memory accesses, 0 to 15.
    FenceSet,
    /// One of 0xcc0, 0xcc1, 0xcc2 and 0xcc4.
    Csr,
    /// 0 to 0xffffffff.
    Word,
    /// An even distance, signed, of 13 bits.
    Branch,
    /// An even distance, signed, of 21 bits.
    Jump,
}

/// A part of a statement behind its mnemonic. Blanks may stand before each.
#[derive(Clone, Copy, Debug, PartialEq, Eq)]
pub enum Part {
    /// `x0` to `x31`.
    Register,
    /// A number, decimal or hexadecimal, perhaps with `-`.
    Number(Field),
    /// A label, or such a number of bytes.
    Place(Field),
    /// `,`.
    Comma,
    /// `(`.
    Open,
    /// `)`.
    Close,
}

/// The operands of a statement: the last three, in order, and 0 for those that it has not.
#[derive(Clone, Copy, Debug, PartialEq, Eq)]
pub struct Operands {
    /// The third from the end.
    pub first: u32,
    /// The last but one.
    pub second: u32,
    /// The last.
    pub third: u32,
}

/// The mnemonics, in the order of the table.
pub const ALL: [Mnemonic; 55] = [
    Mnemonic::Lui,
    Mnemonic::Auipc,
    Mnemonic::Jal,
    Mnemonic::Jalr,
    Mnemonic::Beq,
    Mnemonic::Bne,
    Mnemonic::Blt,
    Mnemonic::Bge,
    Mnemonic::Bltu,
    Mnemonic::Bgeu,
    Mnemonic::Lb,
    Mnemonic::Lh,
    Mnemonic::Lw,
    Mnemonic::Lbu,
    Mnemonic::Lhu,
    Mnemonic::Sb,
    Mnemonic::Sh,
    Mnemonic::Sw,
    Mnemonic::Addi,
    Mnemonic::Slti,
    Mnemonic::Sltiu,
    Mnemonic::Xori,
    Mnemonic::Ori,
    Mnemonic::Andi,
    Mnemonic::Slli,
    Mnemonic::Srli,
    Mnemonic::Srai,
    Mnemonic::Add,
    Mnemonic::Sub,
    Mnemonic::Sll,
    Mnemonic::Slt,
    Mnemonic::Sltu,
    Mnemonic::Xor,
    Mnemonic::Srl,
    Mnemonic::Sra,
    Mnemonic::Or,
    Mnemonic::And,
    Mnemonic::Mul,
    Mnemonic::Mulh,
    Mnemonic::Mulhsu,
    Mnemonic::Mulhu,
    Mnemonic::Div,
    Mnemonic::Divu,
    Mnemonic::Rem,
    Mnemonic::Remu,
    Mnemonic::Fence,
    Mnemonic::Ebreak,
    Mnemonic::Csrr,
    Mnemonic::Tmc,
    Mnemonic::Wspawn,
    Mnemonic::Split,
    Mnemonic::Join,
    Mnemonic::Bar,
    Mnemonic::Pred,
    Mnemonic::Word,
];

const THREE_REGISTERS: [Part; 5] = [
    Part::Register,
    Part::Comma,
    Part::Register,
    Part::Comma,
    Part::Register,
];

const IMMEDIATE: [Part; 5] = [
    Part::Register,
    Part::Comma,
    Part::Register,
    Part::Comma,
    Part::Number(Field::Immediate),
];

const SHIFT: [Part; 5] = [
    Part::Register,
    Part::Comma,
    Part::Register,
    Part::Comma,
    Part::Number(Field::Amount),
];

const MEMORY: [Part; 6] = [
    Part::Register,
    Part::Comma,
    Part::Number(Field::Immediate),
    Part::Open,
    Part::Register,
    Part::Close,
];

const BRANCH: [Part; 5] = [
    Part::Register,
    Part::Comma,
    Part::Register,
    Part::Comma,
    Part::Place(Field::Branch),
];

const UPPER: [Part; 3] = [Part::Register, Part::Comma, Part::Number(Field::Upper)];

const JUMP: [Part; 3] = [Part::Register, Part::Comma, Part::Place(Field::Jump)];

const FENCE: [Part; 3] = [
    Part::Number(Field::FenceSet),
    Part::Comma,
    Part::Number(Field::FenceSet),
];

const CSR: [Part; 3] = [Part::Register, Part::Comma, Part::Number(Field::Csr)];

const ONE_REGISTER: [Part; 1] = [Part::Register];

const TWO_REGISTERS: [Part; 3] = [Part::Register, Part::Comma, Part::Register];

const WORD: [Part; 1] = [Part::Number(Field::Word)];

impl Form {
    /// The parts of a statement of this form, in order.
    pub fn parts(self) -> &'static [Part]
        ensures { result.now ≡ parts_of self }
    {
        match self {
            Form::ThreeRegisters => &THREE_REGISTERS,
            Form::Immediate => &IMMEDIATE,
            Form::Shift => &SHIFT,
            Form::Memory => &MEMORY,
            Form::Branch => &BRANCH,
            Form::Upper => &UPPER,
            Form::Jump => &JUMP,
            Form::Fence => &FENCE,
            Form::Csr => &CSR,
            Form::OneRegister => &ONE_REGISTER,
            Form::TwoRegisters => &TWO_REGISTERS,
            Form::Bare => &[],
            Form::Word => &WORD,
        }
    }
}

impl Mnemonic {
    /// How a text writes it.
    pub fn name(self) -> &'static [u8]
        ensures { result.now ≡ name_of self }
    {
        match self {
            Mnemonic::Lui => b"lui",
            Mnemonic::Auipc => b"auipc",
            Mnemonic::Jal => b"jal",
            Mnemonic::Jalr => b"jalr",
            Mnemonic::Beq => b"beq",
            Mnemonic::Bne => b"bne",
            Mnemonic::Blt => b"blt",
            Mnemonic::Bge => b"bge",
            Mnemonic::Bltu => b"bltu",
            Mnemonic::Bgeu => b"bgeu",
            Mnemonic::Lb => b"lb",
            Mnemonic::Lh => b"lh",
            Mnemonic::Lw => b"lw",
            Mnemonic::Lbu => b"lbu",
            Mnemonic::Lhu => b"lhu",
            Mnemonic::Sb => b"sb",
            Mnemonic::Sh => b"sh",
            Mnemonic::Sw => b"sw",
            Mnemonic::Addi => b"addi",
            Mnemonic::Slti => b"slti",
            Mnemonic::Sltiu => b"sltiu",
            Mnemonic::Xori => b"xori",
            Mnemonic::Ori => b"ori",
            Mnemonic::Andi => b"andi",
            Mnemonic::Slli => b"slli",
            Mnemonic::Srli => b"srli",
            Mnemonic::Srai => b"srai",
            Mnemonic::Add => b"add",
            Mnemonic::Sub => b"sub",
            Mnemonic::Sll => b"sll",
            Mnemonic::Slt => b"slt",
            Mnemonic::Sltu => b"sltu",
            Mnemonic::Xor => b"xor",
            Mnemonic::Srl => b"srl",
            Mnemonic::Sra => b"sra",
            Mnemonic::Or => b"or",
            Mnemonic::And => b"and",
            Mnemonic::Mul => b"mul",
            Mnemonic::Mulh => b"mulh",
            Mnemonic::Mulhsu => b"mulhsu",
            Mnemonic::Mulhu => b"mulhu",
            Mnemonic::Div => b"div",
            Mnemonic::Divu => b"divu",
            Mnemonic::Rem => b"rem",
            Mnemonic::Remu => b"remu",
            Mnemonic::Fence => b"fence",
            Mnemonic::Ebreak => b"ebreak",
            Mnemonic::Csrr => b"csrr",
            Mnemonic::Tmc => b"tmc",
            Mnemonic::Wspawn => b"wspawn",
            Mnemonic::Split => b"split",
            Mnemonic::Join => b"join",
            Mnemonic::Bar => b"bar",
            Mnemonic::Pred => b"pred",
            Mnemonic::Word => b".word",
        }
    }

    /// What stands behind it.
    pub fn form(self) -> Form
        ensures { result ≡ form_of self }
    {
        match self {
            Mnemonic::Lui | Mnemonic::Auipc => Form::Upper,
            Mnemonic::Jal => Form::Jump,
            Mnemonic::Jalr
            | Mnemonic::Lb
            | Mnemonic::Lh
            | Mnemonic::Lw
            | Mnemonic::Lbu
            | Mnemonic::Lhu
            | Mnemonic::Sb
            | Mnemonic::Sh
            | Mnemonic::Sw => Form::Memory,
            Mnemonic::Beq
            | Mnemonic::Bne
            | Mnemonic::Blt
            | Mnemonic::Bge
            | Mnemonic::Bltu
            | Mnemonic::Bgeu => Form::Branch,
            Mnemonic::Addi
            | Mnemonic::Slti
            | Mnemonic::Sltiu
            | Mnemonic::Xori
            | Mnemonic::Ori
            | Mnemonic::Andi => Form::Immediate,
            Mnemonic::Slli | Mnemonic::Srli | Mnemonic::Srai => Form::Shift,
            Mnemonic::Add
            | Mnemonic::Sub
            | Mnemonic::Sll
            | Mnemonic::Slt
            | Mnemonic::Sltu
            | Mnemonic::Xor
            | Mnemonic::Srl
            | Mnemonic::Sra
            | Mnemonic::Or
            | Mnemonic::And
            | Mnemonic::Mul
            | Mnemonic::Mulh
            | Mnemonic::Mulhsu
            | Mnemonic::Mulhu
            | Mnemonic::Div
            | Mnemonic::Divu
            | Mnemonic::Rem
            | Mnemonic::Remu => Form::ThreeRegisters,
            Mnemonic::Fence => Form::Fence,
            Mnemonic::Ebreak | Mnemonic::Join => Form::Bare,
            Mnemonic::Csrr => Form::Csr,
            Mnemonic::Tmc | Mnemonic::Split => Form::OneRegister,
            Mnemonic::Wspawn | Mnemonic::Bar | Mnemonic::Pred => Form::TwoRegisters,
            Mnemonic::Word => Form::Word,
        }
    }
}
