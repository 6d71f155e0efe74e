use std::test::Fail;
use vx_base::Size;
use vx_isa::laws::words_tell_rows;
use vx_isa::{Instr, LaneEffect, effect};

const PC: u32 = 0x100;

#[test]
fn writes(rt: HostRuntime) -> Result<(), Fail> {
    let (rd, rs1) = (5, 6);
    let minus_one = 0xffff_ffff;
    for (instr, a, value) in [
        (Instr::Lui { rd, imm: 0xf_ffff }, 0, 0xffff_f000),
        (Instr::Auipc { rd, imm: 0xf_ffff }, 0, 0xffff_f100),
        (
            Instr::Addi {
                rd,
                rs1,
                imm: minus_one,
            },
            5,
            4,
        ),
        (Instr::Slti { rd, rs1, imm: 0 }, minus_one, 1),
        (Instr::Sltiu { rd, rs1, imm: 0 }, minus_one, 0),
        (
            Instr::Xori {
                rd,
                rs1,
                imm: minus_one,
            },
            0xff,
            0xffff_ff00,
        ),
        (Instr::Ori { rd, rs1, imm: 0x0f }, 0xf0, 0xff),
        (Instr::Andi { rd, rs1, imm: 0x3c }, 0xff, 0x3c),
        (
            Instr::Slli {
                rd,
                rs1,
                amount: 31,
            },
            3,
            0x8000_0000,
        ),
        (Instr::Srli { rd, rs1, amount: 4 }, 0x8000_0000, 0x0800_0000),
        (Instr::Srai { rd, rs1, amount: 4 }, 0x8000_0000, 0xf800_0000),
    ] {
        let expected = LaneEffect::Write { rd, value };
        assert_eq!(rt; effect(instr, PC, a, 0), expected);
    }
    Ok(())
}

#[test]
fn register_arithmetic(rt: HostRuntime) -> Result<(), Fail> {
    let (rd, rs1, rs2) = (5, 6, 7);
    let minus_one = 0xffff_ffff;
    let minus_seven = 0xffff_fff9;
    for (instr, a, b, value) in [
        (Instr::Add { rd, rs1, rs2 }, minus_one, 2, 1),
        (Instr::Sub { rd, rs1, rs2 }, 0, 1, minus_one),
        (Instr::Sll { rd, rs1, rs2 }, 1, 33, 2),
        (Instr::Slt { rd, rs1, rs2 }, minus_one, 1, 1),
        (Instr::Sltu { rd, rs1, rs2 }, minus_one, 1, 0),
        (Instr::Xor { rd, rs1, rs2 }, 12, 10, 6),
        (Instr::Srl { rd, rs1, rs2 }, 0x8000_0000, 33, 0x4000_0000),
        (Instr::Sra { rd, rs1, rs2 }, 0x8000_0000, 33, 0xc000_0000),
        (Instr::Or { rd, rs1, rs2 }, 12, 10, 14),
        (Instr::And { rd, rs1, rs2 }, 12, 10, 8),
        (Instr::Mul { rd, rs1, rs2 }, 0x1_0000, 0x1_0001, 0x1_0000),
        (Instr::Mulh { rd, rs1, rs2 }, minus_one, minus_one, 0),
        (
            Instr::Mulhsu { rd, rs1, rs2 },
            minus_one,
            minus_one,
            minus_one,
        ),
        (
            Instr::Mulhu { rd, rs1, rs2 },
            minus_one,
            minus_one,
            0xffff_fffe,
        ),
        (Instr::Div { rd, rs1, rs2 }, minus_seven, 2, 0xffff_fffd),
        (Instr::Divu { rd, rs1, rs2 }, 7, 0, minus_one),
        (Instr::Rem { rd, rs1, rs2 }, minus_seven, 2, minus_one),
        (Instr::Remu { rd, rs1, rs2 }, 7, 0, 7),
    ] {
        let expected = LaneEffect::Write { rd, value };
        assert_eq!(rt; effect(instr, PC, a, b), expected);
    }
    Ok(())
}

#[test]
fn branches(rt: HostRuntime) -> Result<(), Fail> {
    let (rs1, rs2, place) = (6, 7, 0xffff_fff8);
    let minus_one = 0xffff_ffff;
    for (instr, taken) in [
        (Instr::Beq { rs1, rs2, place }, false),
        (Instr::Bne { rs1, rs2, place }, true),
        (Instr::Blt { rs1, rs2, place }, true),
        (Instr::Bge { rs1, rs2, place }, false),
        (Instr::Bltu { rs1, rs2, place }, false),
        (Instr::Bgeu { rs1, rs2, place }, true),
    ] {
        let expected = LaneEffect::Branch {
            taken,
            target: 0xf8,
        };
        assert_eq!(rt; effect(instr, PC, minus_one, 0), expected);
    }
    Ok(())
}

#[test]
fn jumps(rt: HostRuntime) -> Result<(), Fail> {
    let jal = effect(Instr::Jal { rd: 1, place: 0x20 }, PC, 0, 0);
    assert_eq!(rt;
        jal,
        LaneEffect::Jump {
            rd: 1,
            link: 0x104,
            target: 0x120
        }
    );
    let jalr = effect(
        Instr::Jalr {
            rd: 1,
            imm: 0xffff_fffe,
            rs1: 6,
        },
        PC,
        0x203,
        0,
    );
    assert_eq!(rt;
        jalr,
        LaneEffect::Jump {
            rd: 1,
            link: 0x104,
            target: 0x200
        }
    );
    Ok(())
}

#[test]
fn loads(rt: HostRuntime) -> Result<(), Fail> {
    let (rd, imm, rs1) = (5, 0xffff_fffc, 6);
    for (instr, size, signed) in [
        (Instr::Lb { rd, imm, rs1 }, Size::One, true),
        (Instr::Lh { rd, imm, rs1 }, Size::Two, true),
        (Instr::Lw { rd, imm, rs1 }, Size::Four, false),
        (Instr::Lbu { rd, imm, rs1 }, Size::One, false),
        (Instr::Lhu { rd, imm, rs1 }, Size::Two, false),
    ] {
        let address = 0xffc;
        let expected = LaneEffect::Load {
            rd,
            address,
            size,
            signed,
        };
        assert_eq!(rt; effect(instr, PC, 0x1000, 0), expected);
    }
    Ok(())
}

#[test]
fn stores(rt: HostRuntime) -> Result<(), Fail> {
    let (rs2, imm, rs1) = (7, 4, 6);
    for (instr, size) in [
        (Instr::Sb { rs2, imm, rs1 }, Size::One),
        (Instr::Sh { rs2, imm, rs1 }, Size::Two),
        (Instr::Sw { rs2, imm, rs1 }, Size::Four),
    ] {
        let expected = LaneEffect::Store {
            address: 0x1004,
            size,
            value: 9,
        };
        assert_eq!(rt; effect(instr, PC, 0x1000, 9), expected);
    }
    Ok(())
}

#[test]
fn others(rt: HostRuntime) -> Result<(), Fail> {
    let (rs1, rs2) = (6, 7);
    for (instr, expected) in [
        (
            Instr::Fence {
                before: 15,
                after: 15,
            },
            LaneEffect::Nothing,
        ),
        (Instr::Ebreak, LaneEffect::Break),
        (
            Instr::Csrr { rd: 5, csr: 0xcc0 },
            LaneEffect::Csr { rd: 5, csr: 0xcc0 },
        ),
        (Instr::Tmc { rs1 }, LaneEffect::Warp),
        (Instr::Wspawn { rs1, rs2 }, LaneEffect::Warp),
        (Instr::Split { rs1 }, LaneEffect::Warp),
        (Instr::Join, LaneEffect::Warp),
        (Instr::Bar { rs1, rs2 }, LaneEffect::Warp),
        (Instr::Pred { rs1, rs2 }, LaneEffect::Warp),
    ] {
        assert_eq!(rt; effect(instr, PC, 0, 0), expected);
    }
    Ok(())
}

#[test]
fn tells_operands_in_range(rt: HostRuntime) -> Result<(), Fail> {
    let (rs1, rs2) = (31, 0);
    for (place, fits) in [
        (0xffff_f000, true),
        (0xffff_effe, false),
        (0xffe, true),
        (0x1000, false),
        (7, false),
    ] {
        assert_eq!(rt; Instr::Bne { rs1, rs2, place }.fits(), fits);
    }
    words_tell_rows();
    Ok(())
}
