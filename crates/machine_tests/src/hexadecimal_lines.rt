use asm_text::{HexFault, hex_text, hex_words};
use std::alloc::{AllocError, Global};
use std::test::*;
use vx_base::Pos;

fn has_words(alloc: Global, text: &str, words: &[u32]) -> bool {
    match hex_words(alloc, text.as_bytes()) {
        Ok(found) => found.as_slice() == words,
        Err(_fault) => false,
    }
}

fn fault_of(alloc: Global, text: &str) -> Option<HexFault> {
    match hex_words(alloc, text.as_bytes()) {
        Ok(_words) => None,
        Err(fault) => Some(fault),
    }
}

/// A line so many times, and a last one.
fn repeated(alloc: Global, line: &str, count: u32, last: &str) -> Result<String, AllocError> {
    let mut text = String::new(alloc);
    for _ in 0..count {
        text.push_str(line)?;
    }
    text.push_str(last)?;
    Ok(text)
}

#[test]
fn words_as_lines(rt: HostRuntime) -> Result<(), Fail> {
    let text = hex_text(rt.alloc(), &[5, 0xffff_ffff, 0x0abc_def0]);
    match text {
        Ok(text) => assert_eq!(rt;
            text.as_slice(),
            b"00000005\nffffffff\n0abcdef0\n".as_slice()
        ),
        Err(_memory) => assert!(rt; false),
    }
    for text in ["00500093\n0002a00b\n", "00500093\n0002A00B"] {
        assert!(rt;
            has_words(rt.alloc(), text, &[0x0050_0093, 0x0002_a00b]),
            "{text}"
        );
    }
    assert!(rt; has_words(rt.alloc(), "", &[]));
    Ok(())
}

#[test]
fn bytes_that_are_no_word(rt: HostRuntime) -> Result<(), Fail> {
    for (text, line, col) in [
        ("0050009", 1, 8),
        ("0050009g", 1, 8),
        ("005000931", 1, 9),
        ("00500093\r\n", 1, 9),
        ("\n", 1, 1),
        ("# words", 1, 1),
        ("00500093\n 0002a00b", 2, 1),
        ("00500093\n\n", 2, 1),
    ] {
        let fault = HexFault::Syntax(Pos { line, col });
        assert_eq!(rt; fault_of(rt.alloc(), text), Some(fault), "{text}");
    }
    let past = repeated(rt.alloc(), "0000300b\n", 65_536, "0000300b")?;
    let pos = Pos {
        line: 65_537,
        col: 1,
    };
    let too_large = HexFault::TooLarge { pos, words: 65_537 };
    assert_eq!(rt; fault_of(rt.alloc(), past.as_str()), Some(too_large));
    let bad = repeated(rt.alloc(), "0000300b\n", 65_536, "300b")?;
    let syntax = HexFault::Syntax(Pos {
        line: 65_537,
        col: 5,
    });
    assert_eq!(rt; fault_of(rt.alloc(), bad.as_str()), Some(syntax));
    Ok(())
}
