//! Words of the standard rows as LLVM's assembler writes them, and those of the warp instructions worked by hand.
use std::alloc::Global;
use std::test::*;
use vx_disasm::disassemble;

fn has_text(alloc: Global, words: &[u32], text: &str) -> bool {
    match disassemble(alloc, words) {
        Ok(found) => found.as_slice() == text.as_bytes(),
        Err(_memory) => false,
    }
}

#[test]
fn each_row(rt: HostRuntime) {
    for (text, word) in [
        ("lui x5, 0xfffff\n", 0xffff_f2b7),
        ("auipc x6, 0x12345\n", 0x1234_5317),
        ("jal x1, -1048576\n", 0x8000_00ef),
        ("jal x0, 1048574\n", 0x7fff_f06f),
        ("jal x1, 2730\n", 0x2ab0_00ef),
        ("jalr x1, -2048(x6)\n", 0x8003_00e7),
        ("beq x5, x6, -4096\n", 0x8062_8063),
        ("bne x6, x7, 4094\n", 0x7e73_1fe3),
        ("blt x5, x31, -2\n", 0xfff2_cfe3),
        ("bge x8, x9, 2048\n", 0x0094_50e3),
        ("bltu x10, x11, 1364\n", 0x54b5_6a63),
        ("bgeu x12, x13, 30\n", 0x00d6_7f63),
        ("lb x5, -1(x6)\n", 0xfff3_0283),
        ("lh x7, 2(x8)\n", 0x0024_1383),
        ("lw x9, 2047(x10)\n", 0x7ff5_2483),
        ("lbu x11, -2048(x12)\n", 0x8006_4583),
        ("lhu x13, 0(x14)\n", 0x0007_5683),
        ("sb x7, -1(x6)\n", 0xfe73_0fa3),
        ("sh x8, 31(x9)\n", 0x0084_9fa3),
        ("sw x10, -2048(x11)\n", 0x80a5_a023),
        ("addi x1, x0, 5\n", 0x0050_0093),
        ("slti x2, x3, -1\n", 0xfff1_a113),
        ("sltiu x4, x5, -1\n", 0xfff2_b213),
        ("xori x6, x7, 1365\n", 0x5553_c313),
        ("ori x8, x9, -1366\n", 0xaaa4_e413),
        ("andi x10, x11, 2047\n", 0x7ff5_f513),
        ("slli x12, x13, 31\n", 0x01f6_9613),
        ("srli x14, x15, 16\n", 0x0107_d713),
        ("srai x16, x17, 1\n", 0x4018_d813),
        ("add x18, x19, x20\n", 0x0149_8933),
        ("sub x21, x22, x23\n", 0x417b_0ab3),
        ("sll x24, x25, x26\n", 0x01ac_9c33),
        ("slt x27, x28, x29\n", 0x01de_2db3),
        ("sltu x30, x31, x0\n", 0x000f_bf33),
        ("xor x1, x2, x3\n", 0x0031_40b3),
        ("srl x4, x5, x6\n", 0x0062_d233),
        ("sra x7, x8, x9\n", 0x4094_53b3),
        ("or x10, x11, x12\n", 0x00c5_e533),
        ("and x13, x14, x15\n", 0x00f7_76b3),
        ("mul x3, x1, x2\n", 0x0220_81b3),
        ("mulh x4, x5, x6\n", 0x0262_9233),
        ("mulhsu x7, x8, x9\n", 0x0294_23b3),
        ("mulhu x10, x11, x12\n", 0x02c5_b533),
        ("div x13, x14, x15\n", 0x02f7_46b3),
        ("divu x16, x17, x18\n", 0x0328_d833),
        ("rem x19, x20, x21\n", 0x035a_69b3),
        ("remu x22, x23, x24\n", 0x038b_fb33),
        ("fence 15, 15\n", 0x0ff0_000f),
        ("fence 1, 2\n", 0x0120_000f),
        ("ebreak\n", 0x0010_0073),
        ("csrr x5, 0xcc4\n", 0xcc40_22f3),
        ("csrr x31, 0xcc0\n", 0xcc00_2ff3),
        ("csrr x1, 0xcc1\n", 0xcc10_20f3),
        ("csrr x2, 0xcc2\n", 0xcc20_2173),
        ("tmc x0\n", 0x0000_000b),
        ("wspawn x5, x6\n", 0x0062_900b),
        ("split x5\n", 0x0002_a00b),
        ("join\n", 0x0000_300b),
        ("bar x6, x7\n", 0x0073_400b),
        ("pred x5, x6\n", 0x0062_d00b),
    ] {
        assert!(rt; has_text(rt.alloc(), &[word], text), "{text}");
    }
}

#[test]
fn words_of_no_row(rt: HostRuntime) {
    for (text, word) in [
        (".word 0xffffffff\n", 0xffff_ffff),
        (".word 0x0010000b\n", 0x0010_000b),
        (".word 0x00000000\n", 0),
    ] {
        assert!(rt; has_text(rt.alloc(), &[word], text), "{text}");
    }
}

#[test]
fn a_line_for_each_word(rt: HostRuntime) {
    let words = [
        0x0050_0093,
        0x0002_a00b,
        0x0220_81b3,
        0x0073_400b,
        0xcc40_22f3,
    ];
    let text = "addi x1, x0, 5\nsplit x5\nmul x3, x1, x2\nbar x6, x7\ncsrr x5, 0xcc4\n";
    assert!(rt; has_text(rt.alloc(), &words, text));
    assert!(rt; has_text(rt.alloc(), &[], ""));
}
