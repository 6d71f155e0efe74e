//! Words of the standard rows as LLVM's assembler writes them, and those of the warp instructions worked by hand.
use rv_encode::laws::{read_back, reads_back};
use rv_encode::{decode, encode};
use std::test::Fail;
use vx_isa::Instr;

const MINUS_1: u32 = 0xffff_ffff;

const MINUS_2048: u32 = 0xffff_f800;

/// The word of an instruction, and None where an operand does not fit.
fn word_if_fit(i: Instr) -> Option<u32> {
    if i.fits() { Some(encode(i)) } else { None }
}

#[test]
fn jumps_and_upper_immediates(rt: HostRuntime) -> Result<(), Fail> {
    for (instr, word) in [
        (
            Instr::Lui {
                rd: 5,
                imm: 0xf_ffff,
            },
            0xffff_f2b7,
        ),
        (
            Instr::Auipc {
                rd: 6,
                imm: 0x1_2345,
            },
            0x1234_5317,
        ),
        (
            Instr::Jal {
                rd: 1,
                place: 0xfff0_0000,
            },
            0x8000_00ef,
        ),
        (
            Instr::Jal {
                rd: 0,
                place: 0xf_fffe,
            },
            0x7fff_f06f,
        ),
        (Instr::Jal { rd: 1, place: 2730 }, 0x2ab0_00ef),
        (
            Instr::Jalr {
                rd: 1,
                imm: MINUS_2048,
                rs1: 6,
            },
            0x8003_00e7,
        ),
        (
            Instr::Beq {
                rs1: 5,
                rs2: 6,
                place: 0xffff_f000,
            },
            0x8062_8063,
        ),
        (
            Instr::Bne {
                rs1: 6,
                rs2: 7,
                place: 4094,
            },
            0x7e73_1fe3,
        ),
        (
            Instr::Blt {
                rs1: 5,
                rs2: 31,
                place: 0xffff_fffe,
            },
            0xfff2_cfe3,
        ),
        (
            Instr::Bge {
                rs1: 8,
                rs2: 9,
                place: 2048,
            },
            0x0094_50e3,
        ),
        (
            Instr::Bltu {
                rs1: 10,
                rs2: 11,
                place: 1364,
            },
            0x54b5_6a63,
        ),
        (
            Instr::Bgeu {
                rs1: 12,
                rs2: 13,
                place: 30,
            },
            0x00d6_7f63,
        ),
    ] {
        assert_eq!(rt; word_if_fit(instr), Some(word));
        assert_eq!(rt; decode(word), Some(instr));
    }
    Ok(())
}

#[test]
fn loads_and_stores(rt: HostRuntime) -> Result<(), Fail> {
    for (instr, word) in [
        (
            Instr::Lb {
                rd: 5,
                imm: MINUS_1,
                rs1: 6,
            },
            0xfff3_0283,
        ),
        (
            Instr::Lh {
                rd: 7,
                imm: 2,
                rs1: 8,
            },
            0x0024_1383,
        ),
        (
            Instr::Lw {
                rd: 9,
                imm: 2047,
                rs1: 10,
            },
            0x7ff5_2483,
        ),
        (
            Instr::Lbu {
                rd: 11,
                imm: MINUS_2048,
                rs1: 12,
            },
            0x8006_4583,
        ),
        (
            Instr::Lhu {
                rd: 13,
                imm: 0,
                rs1: 14,
            },
            0x0007_5683,
        ),
        (
            Instr::Sb {
                rs2: 7,
                imm: MINUS_1,
                rs1: 6,
            },
            0xfe73_0fa3,
        ),
        (
            Instr::Sh {
                rs2: 8,
                imm: 31,
                rs1: 9,
            },
            0x0084_9fa3,
        ),
        (
            Instr::Sw {
                rs2: 10,
                imm: MINUS_2048,
                rs1: 11,
            },
            0x80a5_a023,
        ),
    ] {
        assert_eq!(rt; word_if_fit(instr), Some(word));
        assert_eq!(rt; decode(word), Some(instr));
    }
    Ok(())
}

#[test]
fn immediate_arithmetic(rt: HostRuntime) -> Result<(), Fail> {
    for (instr, word) in [
        (
            Instr::Addi {
                rd: 1,
                rs1: 0,
                imm: 5,
            },
            0x0050_0093,
        ),
        (
            Instr::Slti {
                rd: 2,
                rs1: 3,
                imm: MINUS_1,
            },
            0xfff1_a113,
        ),
        (
            Instr::Sltiu {
                rd: 4,
                rs1: 5,
                imm: MINUS_1,
            },
            0xfff2_b213,
        ),
        (
            Instr::Xori {
                rd: 6,
                rs1: 7,
                imm: 0x555,
            },
            0x5553_c313,
        ),
        (
            Instr::Ori {
                rd: 8,
                rs1: 9,
                imm: 0xffff_faaa,
            },
            0xaaa4_e413,
        ),
        (
            Instr::Andi {
                rd: 10,
                rs1: 11,
                imm: 2047,
            },
            0x7ff5_f513,
        ),
        (
            Instr::Slli {
                rd: 12,
                rs1: 13,
                amount: 31,
            },
            0x01f6_9613,
        ),
        (
            Instr::Srli {
                rd: 14,
                rs1: 15,
                amount: 16,
            },
            0x0107_d713,
        ),
        (
            Instr::Srai {
                rd: 16,
                rs1: 17,
                amount: 1,
            },
            0x4018_d813,
        ),
    ] {
        assert_eq!(rt; word_if_fit(instr), Some(word));
        assert_eq!(rt; decode(word), Some(instr));
    }
    Ok(())
}

#[test]
fn register_arithmetic(rt: HostRuntime) -> Result<(), Fail> {
    for (instr, word) in [
        (
            Instr::Add {
                rd: 18,
                rs1: 19,
                rs2: 20,
            },
            0x0149_8933,
        ),
        (
            Instr::Sub {
                rd: 21,
                rs1: 22,
                rs2: 23,
            },
            0x417b_0ab3,
        ),
        (
            Instr::Sll {
                rd: 24,
                rs1: 25,
                rs2: 26,
            },
            0x01ac_9c33,
        ),
        (
            Instr::Slt {
                rd: 27,
                rs1: 28,
                rs2: 29,
            },
            0x01de_2db3,
        ),
        (
            Instr::Sltu {
                rd: 30,
                rs1: 31,
                rs2: 0,
            },
            0x000f_bf33,
        ),
        (
            Instr::Xor {
                rd: 1,
                rs1: 2,
                rs2: 3,
            },
            0x0031_40b3,
        ),
        (
            Instr::Srl {
                rd: 4,
                rs1: 5,
                rs2: 6,
            },
            0x0062_d233,
        ),
        (
            Instr::Sra {
                rd: 7,
                rs1: 8,
                rs2: 9,
            },
            0x4094_53b3,
        ),
        (
            Instr::Or {
                rd: 10,
                rs1: 11,
                rs2: 12,
            },
            0x00c5_e533,
        ),
        (
            Instr::And {
                rd: 13,
                rs1: 14,
                rs2: 15,
            },
            0x00f7_76b3,
        ),
        (
            Instr::Mul {
                rd: 3,
                rs1: 1,
                rs2: 2,
            },
            0x0220_81b3,
        ),
        (
            Instr::Mulh {
                rd: 4,
                rs1: 5,
                rs2: 6,
            },
            0x0262_9233,
        ),
        (
            Instr::Mulhsu {
                rd: 7,
                rs1: 8,
                rs2: 9,
            },
            0x0294_23b3,
        ),
        (
            Instr::Mulhu {
                rd: 10,
                rs1: 11,
                rs2: 12,
            },
            0x02c5_b533,
        ),
        (
            Instr::Div {
                rd: 13,
                rs1: 14,
                rs2: 15,
            },
            0x02f7_46b3,
        ),
        (
            Instr::Divu {
                rd: 16,
                rs1: 17,
                rs2: 18,
            },
            0x0328_d833,
        ),
        (
            Instr::Rem {
                rd: 19,
                rs1: 20,
                rs2: 21,
            },
            0x035a_69b3,
        ),
        (
            Instr::Remu {
                rd: 22,
                rs1: 23,
                rs2: 24,
            },
            0x038b_fb33,
        ),
    ] {
        assert_eq!(rt; word_if_fit(instr), Some(word));
        assert_eq!(rt; decode(word), Some(instr));
    }
    Ok(())
}

#[test]
fn fence_system_and_warp(rt: HostRuntime) -> Result<(), Fail> {
    for (instr, word) in [
        (
            Instr::Fence {
                before: 15,
                after: 15,
            },
            0x0ff0_000f,
        ),
        (
            Instr::Fence {
                before: 1,
                after: 2,
            },
            0x0120_000f,
        ),
        (Instr::Ebreak, 0x0010_0073),
        (Instr::Csrr { rd: 5, csr: 0xcc4 }, 0xcc40_22f3),
        (Instr::Csrr { rd: 31, csr: 0xcc0 }, 0xcc00_2ff3),
        (Instr::Csrr { rd: 1, csr: 0xcc1 }, 0xcc10_20f3),
        (Instr::Csrr { rd: 2, csr: 0xcc2 }, 0xcc20_2173),
        (Instr::Tmc { rs1: 0 }, 0x0000_000b),
        (Instr::Wspawn { rs1: 5, rs2: 6 }, 0x0062_900b),
        (Instr::Split { rs1: 5 }, 0x0002_a00b),
        (Instr::Join, 0x0000_300b),
        (Instr::Bar { rs1: 6, rs2: 7 }, 0x0073_400b),
        (Instr::Pred { rs1: 5, rs2: 6 }, 0x0062_d00b),
    ] {
        assert_eq!(rt; word_if_fit(instr), Some(word));
        assert_eq!(rt; decode(word), Some(instr));
    }
    Ok(())
}

#[test]
fn words_of_no_row(rt: HostRuntime) -> Result<(), Fail> {
    for word in [
        // no opcode, and the compressed words
        0x0000_0000,
        0x0000_0001,
        0xffff_ffff,
        // `jalr` with a function
        0x8003_10e7,
        // branches without a condition
        0x0000_2063,
        0x0000_3063,
        // loads and stores of eight bytes
        0x0000_3003,
        0x0000_3023,
        0x0000_6003,
        // shifts with another kind, as an amount past 31 has it
        0x4000_1013,
        0x0200_5013,
        // operations on registers with another kind
        0x4000_1033,
        0x0400_0033,
        // fences with rd, rs1 or a mode, and `fence.i`
        0x0ff0_008f,
        0x0ff0_800f,
        0x8330_000f,
        0x0000_100f,
        // `ecall`, `ebreak` with rd or rs1, and `wfi`
        0x0000_0073,
        0x0010_00f3,
        0x0010_8073,
        0x1050_0073,
        // `csrr` with rs1, of another register, and a write
        0xcc42_a2f3,
        0xcc30_22f3,
        0xc000_22f3,
        0xcc42_92f3,
        // warp instructions with a field that they do not name
        0x0010_000b,
        0x0000_008b,
        0x0200_000b,
        0x0062_908b,
        0x0012_a00b,
        0x0000_b00b,
        0x0010_300b,
        // and without a name
        0x0000_600b,
    ] {
        assert_eq!(rt; decode(word), None);
    }
    Ok(())
}

#[test]
fn operands_that_do_not_fit(rt: HostRuntime) -> Result<(), Fail> {
    let (rd, rs1, rs2) = (1, 2, 3);
    for instr in [
        Instr::Add { rd: 32, rs1, rs2 },
        Instr::Add { rd, rs1: 32, rs2 },
        Instr::Add { rd, rs1, rs2: 32 },
        Instr::Addi { rd, rs1, imm: 2048 },
        Instr::Addi {
            rd,
            rs1,
            imm: MINUS_2048 - 1,
        },
        Instr::Sw {
            rs2,
            imm: 0x1000,
            rs1,
        },
        Instr::Slli {
            rd,
            rs1,
            amount: 32,
        },
        Instr::Beq {
            rs1,
            rs2,
            place: 4096,
        },
        Instr::Beq { rs1, rs2, place: 3 },
        Instr::Jal {
            rd,
            place: 0x10_0000,
        },
        Instr::Jal {
            rd,
            place: 0xffef_fffe,
        },
        Instr::Lui { rd, imm: 0x10_0000 },
        Instr::Fence {
            before: 16,
            after: 0,
        },
        Instr::Csrr { rd, csr: 0xcc3 },
    ] {
        assert_eq!(rt; word_if_fit(instr), None);
    }
    let read = Instr::Csrr { rd, csr: 0xcc0 };
    if read.fits() {
        assert_eq!(rt; read_back(read), Some(read));
    }
    reads_back();
    Ok(())
}
