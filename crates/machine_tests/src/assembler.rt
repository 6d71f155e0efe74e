//! Words of the standard rows as LLVM's assembler writes them, and those of the warp instructions worked by hand.
use asm_text::AsmFault;
use std::alloc::{AllocError, Global};
use std::test::*;
use vx_asm::assemble;
use vx_base::{Pos, WordList};

/// What a text of at most 2,097,152 bytes assembles to.
fn assembled(alloc: Global, text: &str) -> Option<Result<WordList, AsmFault>> {
    if text.len() > 2_097_152 {
        return None;
    }
    Some(assemble(alloc, text.as_bytes()))
}

/// The word of a text of one.
fn word_of(alloc: Global, text: &str) -> Option<u32> {
    match assembled(alloc, text) {
        Some(Ok(words)) if words.len() == 1 => words.get(0).copied(),
        _ => None,
    }
}

fn fault_of(alloc: Global, text: &str) -> Option<AsmFault> {
    match assembled(alloc, text) {
        Some(Err(fault)) => Some(fault),
        _ => None,
    }
}

/// A first line, another line so many times, and a last one.
fn repeated(
    alloc: Global,
    first: &str,
    line: &str,
    count: u32,
    last: &str,
) -> Result<String, AllocError> {
    let mut text = String::from_str(alloc, first)?;
    for _ in 0..count {
        text.push_str(line)?;
    }
    text.push_str(last)?;
    Ok(text)
}

#[test]
fn each_row(rt: HostRuntime) {
    for (text, word) in [
        ("lui x5, 0xfffff", 0xffff_f2b7),
        ("auipc x6, 0x12345", 0x1234_5317),
        ("jal x1, -1048576", 0x8000_00ef),
        ("jal x0, 1048574", 0x7fff_f06f),
        ("jal x1, 2730", 0x2ab0_00ef),
        ("jalr x1, -2048(x6)", 0x8003_00e7),
        ("beq x5, x6, -4096", 0x8062_8063),
        ("bne x6, x7, 4094", 0x7e73_1fe3),
        ("blt x5, x31, -2", 0xfff2_cfe3),
        ("bge x8, x9, 2048", 0x0094_50e3),
        ("bltu x10, x11, 1364", 0x54b5_6a63),
        ("bgeu x12, x13, 30", 0x00d6_7f63),
        ("lb x5, -1(x6)", 0xfff3_0283),
        ("lh x7, 2(x8)", 0x0024_1383),
        ("lw x9, 2047(x10)", 0x7ff5_2483),
        ("lbu x11, -2048(x12)", 0x8006_4583),
        ("lhu x13, 0(x14)", 0x0007_5683),
        ("sb x7, -1(x6)", 0xfe73_0fa3),
        ("sh x8, 31(x9)", 0x0084_9fa3),
        ("sw x10, -2048(x11)", 0x80a5_a023),
        ("addi x1, x0, 5", 0x0050_0093),
        ("slti x2, x3, -1", 0xfff1_a113),
        ("sltiu x4, x5, -1", 0xfff2_b213),
        ("xori x6, x7, 1365", 0x5553_c313),
        ("ori x8, x9, -1366", 0xaaa4_e413),
        ("andi x10, x11, 2047", 0x7ff5_f513),
        ("slli x12, x13, 31", 0x01f6_9613),
        ("srli x14, x15, 16", 0x0107_d713),
        ("srai x16, x17, 1", 0x4018_d813),
        ("add x18, x19, x20", 0x0149_8933),
        ("sub x21, x22, x23", 0x417b_0ab3),
        ("sll x24, x25, x26", 0x01ac_9c33),
        ("slt x27, x28, x29", 0x01de_2db3),
        ("sltu x30, x31, x0", 0x000f_bf33),
        ("xor x1, x2, x3", 0x0031_40b3),
        ("srl x4, x5, x6", 0x0062_d233),
        ("sra x7, x8, x9", 0x4094_53b3),
        ("or x10, x11, x12", 0x00c5_e533),
        ("and x13, x14, x15", 0x00f7_76b3),
        ("mul x3, x1, x2", 0x0220_81b3),
        ("mulh x4, x5, x6", 0x0262_9233),
        ("mulhsu x7, x8, x9", 0x0294_23b3),
        ("mulhu x10, x11, x12", 0x02c5_b533),
        ("div x13, x14, x15", 0x02f7_46b3),
        ("divu x16, x17, x18", 0x0328_d833),
        ("rem x19, x20, x21", 0x035a_69b3),
        ("remu x22, x23, x24", 0x038b_fb33),
        ("fence 15, 15", 0x0ff0_000f),
        ("fence 1, 2", 0x0120_000f),
        ("ebreak", 0x0010_0073),
        ("csrr x5, 0xcc4", 0xcc40_22f3),
        ("csrr x31, 0xcc0", 0xcc00_2ff3),
        ("csrr x1, 0xcc1", 0xcc10_20f3),
        ("csrr x2, 0xcc2", 0xcc20_2173),
        ("tmc x0", 0x0000_000b),
        ("wspawn x5, x6", 0x0062_900b),
        ("split x5", 0x0002_a00b),
        ("join", 0x0000_300b),
        ("bar x6, x7", 0x0073_400b),
        ("pred x5, x6", 0x0062_d00b),
        (".word 0xffffffff", 0xffff_ffff),
        (".word 0", 0),
    ] {
        assert_eq!(rt; word_of(rt.alloc(), text), Some(word), "{text}");
    }
}

#[test]
fn ways_to_write(rt: HostRuntime) {
    for (text, word) in [
        ("  addi  x1 ,x0,\t5\r", 0x0050_0093),
        ("addi x1,x0,0x5#five", 0x0050_0093),
        ("addi x1, x0, -0x1", 0xfff0_0093),
        ("addi x1, x0, 0000000005", 0x0050_0093),
        ("add: add x1, x2, x3", 0x0031_00b3),
        ("x1 : lw x9, 2047 (x10)", 0x7ff5_2483),
        (".word-0", 0),
        (".word 0xABCDEF", 0x00ab_cdef),
        ("fence-0,0", 0x0000_000f),
        ("csrr x5, 3268", 0xcc40_22f3),
        ("\n# nothing\n\tjoin", 0x0000_300b),
    ] {
        assert_eq!(rt; word_of(rt.alloc(), text), Some(word), "{text}");
    }
}

#[test]
fn labels_stand_before_the_next_word(rt: HostRuntime) -> Result<(), Fail> {
    let text =
        "start: addi x1, x0, 3\nloop:\n addi x1, x1, -1\n bne x1, x0, loop\n beq x1, x0, end\n jal x1, start\n lui x5, 0xfffff\nend: jal x0, end\n";
    let words = assembled(rt.alloc(), text).ok_or("too long")?;
    match words {
        Ok(words) => {
            let expected = [
                0x0030_0093,
                0xfff0_8093,
                0xfe00_9ee3,
                0x0000_8663,
                0xff1f_f0ef,
                0xffff_f2b7,
                0x0000_006f,
            ];
            assert_eq!(rt; words.as_slice(), expected.as_slice());
        }
        Err(_fault) => assert!(rt; false),
    }
    let behind_the_last = word_of(rt.alloc(), "jal x0, end\nend:");
    assert_eq!(rt; behind_the_last, Some(0x0040_006f));
    match assembled(rt.alloc(), "").ok_or("too long")? {
        Ok(words) => assert_eq!(rt; words.len(), 0),
        Err(_fault) => assert!(rt; false),
    }
    Ok(())
}

#[test]
fn bytes_that_no_line_goes_on_with(rt: HostRuntime) {
    for (text, line, col) in [
        ("addi x1, x0", 1, 12),
        ("addi x1 x0, 1", 1, 9),
        ("addi x32, x0, 1", 1, 8),
        ("addi x01, x0, 1", 1, 8),
        ("addi x1, x0, -", 1, 15),
        ("addi x1, x0, 0x", 1, 16),
        ("add x1, x2, 3", 1, 13),
        ("lw x1, 4 x2)", 1, 10),
        ("join x1", 1, 6),
        ("join;", 1, 5),
        ("tmcx5", 1, 6),
        ("ADD x1, x2, x3", 1, 5),
        ("1: join", 1, 1),
        ("j1: j1:", 1, 6),
        (".word5", 1, 6),
        (".word 12345678901", 1, 17),
        ("join\n  oops here", 2, 8),
    ] {
        let fault = AsmFault::Syntax(Pos { line, col });
        assert_eq!(rt; fault_of(rt.alloc(), text), Some(fault), "{text}");
    }
}

#[test]
fn numbers_that_do_not_fit(rt: HostRuntime) {
    for (text, line, col) in [
        ("addi x1, x0, 2048", 1, 14),
        ("addi x1, x0, -2049", 1, 14),
        ("slli x1, x2, 32", 1, 14),
        ("lui x1, 0x100000", 1, 9),
        ("lui x1, -1", 1, 9),
        ("csrr x1, 0xcc3", 1, 10),
        ("fence 16, 17", 1, 7),
        ("fence 1, 16", 1, 10),
        ("beq x1, x2, 3", 1, 13),
        ("beq x1, x2, 4096", 1, 13),
        ("jal x0, 0x100000", 1, 9),
        (".word 0x100000000", 1, 7),
        ("a:\na: addi x1, x0, 5000", 2, 17),
        ("jal x0, gone\naddi x1, x0, 4096", 2, 14),
    ] {
        let fault = AsmFault::Range(Pos { line, col });
        assert_eq!(rt; fault_of(rt.alloc(), text), Some(fault), "{text}");
    }
}

#[test]
fn labels_and_sizes_that_are_refused(rt: HostRuntime) -> Result<(), Fail> {
    let no_label = AsmFault::NoLabel(Pos { line: 1, col: 9 });
    assert_eq!(rt;
        fault_of(rt.alloc(), "jal x0, there\nThere:"),
        Some(no_label)
    );
    let twice = AsmFault::LabelTwice(Pos { line: 2, col: 2 });
    assert_eq!(rt; fault_of(rt.alloc(), "a: join\n a:"), Some(twice));
    let far = repeated(rt.alloc(), "beq x1,x2,end\n", "join\n", 1023, "join\nend:")?;
    let range = AsmFault::Range(Pos { line: 1, col: 11 });
    assert_eq!(rt; fault_of(rt.alloc(), far.as_str()), Some(range));
    let whole = repeated(rt.alloc(), "", "join\n", 65_536, "end: # behind the last\n")?;
    match assembled(rt.alloc(), whole.as_str()).ok_or("too long")? {
        Ok(words) => assert_eq!(rt; words.len(), 65_536),
        Err(_fault) => assert!(rt; false),
    }
    let past = repeated(rt.alloc(), "", "join\n", 65_536, "end: join\n")?;
    let pos = Pos {
        line: 65_537,
        col: 1,
    };
    let too_large = AsmFault::TooLarge { pos, words: 65_537 };
    assert_eq!(rt; fault_of(rt.alloc(), past.as_str()), Some(too_large));
    let bad = repeated(rt.alloc(), "", "join\n", 65_536, "join!\n")?;
    let syntax = AsmFault::Syntax(Pos {
        line: 65_537,
        col: 5,
    });
    assert_eq!(rt; fault_of(rt.alloc(), bad.as_str()), Some(syntax));
    Ok(())
}
