//! Elements of files, put into words and printed.
use buf_text::{BufLines, LengthFault, load};
use std::alloc::Global;
use std::test::Fail;
use vx_base::{Elem, ListOf, Memory, Text, WordList};

/// Sixteen words of ones.
fn ones(alloc: Global) -> Result<WordList, Memory> {
    let items = Vec::from_slice(alloc, &[0xffff_ffff; 16])?;
    Ok(ListOf { items })
}

/// How many elements are put from byte `at` of sixteen words on, and None where they have no room there.
fn put(
    words: &mut WordList,
    elem: Elem,
    at: u32,
    bytes: &[u8],
) -> Option<Result<u32, LengthFault>> {
    if words.len() < 16 || at > 64 || bytes.len() > 64 - at as usize {
        return None;
    }
    Some(load(bytes, elem, at, words))
}

/// The next line of a buffer, and None where there is none, or where the buffer does not lie in sixteen words.
fn line(alloc: Global, lines: &mut BufLines, words: &WordList) -> Result<Option<Text>, Memory> {
    let size = u64::from(lines.elem.size().bytes());
    let end = u64::from(lines.at) + size * u64::from(lines.count);
    if words.len() < 16 || end > 64 {
        return Ok(None);
    }
    lines.next(alloc, words)
}

/// Puts the next line of a buffer behind a text.
fn push_line(
    alloc: Global,
    text: &mut Vec<u8>,
    lines: &mut BufLines,
    words: &WordList,
) -> Result<(), Memory> {
    if let Some(next) = line(alloc, lines, words)? {
        text.extend_from_slice(next.as_slice())?;
    }
    Ok(())
}

/// The first five lines of the buffer `a` of these bytes, which lies at byte `at` of sixteen words.
fn printed(alloc: Global, elem: Elem, at: u32, bytes: &[u8]) -> Result<Vec<u8>, Memory> {
    let mut text = Vec::new(alloc);
    let mut words = ones(alloc)?;
    let Some(Ok(count)) = put(&mut words, elem, at, bytes) else {
        return Ok(text);
    };
    let mut lines = BufLines::new(alloc, b"a", elem, count, at)?;
    for _ in 0..5 {
        push_line(alloc, &mut text, &mut lines, &words)?;
    }
    Ok(text)
}

fn prints(alloc: Global, elem: Elem, at: u32, bytes: &[u8], text: &str) -> bool {
    match printed(alloc, elem, at, bytes) {
        Ok(found) => found.as_slice() == text.as_bytes(),
        Err(_memory) => false,
    }
}

#[test]
fn least_and_greatest(rt: HostRuntime) {
    for (elem, bytes, text) in [
        (
            Elem::Char,
            [0x80, 0x7f, 0xff, 0, 1, 0, 0, 0],
            "a char 8\n-128 127 -1 0 1 0 0 0\n",
        ),
        (
            Elem::Uchar,
            [0, 0xff, 0x80, 0x7f, 1, 0, 0, 0],
            "a uchar 8\n0 255 128 127 1 0 0 0\n",
        ),
        (
            Elem::Short,
            [0, 0x80, 0xff, 0x7f, 0xff, 0xff, 0, 1],
            "a short 4\n-32768 32767 -1 256\n",
        ),
        (
            Elem::Ushort,
            [0, 0, 0xff, 0xff, 0, 0x80, 0, 1],
            "a ushort 4\n0 65535 32768 256\n",
        ),
        (
            Elem::Int,
            [0, 0, 0, 0x80, 0xff, 0xff, 0xff, 0x7f],
            "a int 2\n-2147483648 2147483647\n",
        ),
        (
            Elem::Int,
            [0xff, 0xff, 0xff, 0xff, 0, 1, 2, 3],
            "a int 2\n-1 50462976\n",
        ),
        (
            Elem::Uint,
            [0, 0, 0, 0, 0xff, 0xff, 0xff, 0xff],
            "a uint 2\n0 4294967295\n",
        ),
    ] {
        // At the first byte of a word, and where no word begins.
        assert!(rt; prints(rt.alloc(), elem, 0, &bytes, text), "{text}");
        assert!(rt; prints(rt.alloc(), elem, 7, &bytes, text), "{text}");
        assert!(rt; prints(rt.alloc(), elem, 56, &bytes, text), "{text}");
    }
}

/// Whether so many bytes, at most 33, each of which is 9, are printed so.
fn prints_nines(alloc: Global, count: usize, text: &str) -> bool {
    let bytes = [9; 33];
    if count > 33 {
        return false;
    }
    prints(alloc, Elem::Uchar, 1, &bytes[..count], text)
}

#[test]
fn sixteen_on_a_line(rt: HostRuntime) {
    for (count, text) in [
        (0, "a uchar 0\n"),
        (1, "a uchar 1\n9\n"),
        (16, "a uchar 16\n9 9 9 9 9 9 9 9 9 9 9 9 9 9 9 9\n"),
        (17, "a uchar 17\n9 9 9 9 9 9 9 9 9 9 9 9 9 9 9 9\n9\n"),
        (
            33,
            "a uchar 33\n9 9 9 9 9 9 9 9 9 9 9 9 9 9 9 9\n9 9 9 9 9 9 9 9 9 9 9 9 9 9 9 9\n9\n",
        ),
    ] {
        assert!(rt; prints_nines(rt.alloc(), count, text), "{text}");
    }
}

/// How many elements that many bytes are, and how many bytes an element has where they are none.
fn counted(
    alloc: Global,
    elem: Elem,
    many: usize,
) -> Result<Option<Result<u32, LengthFault>>, Memory> {
    let bytes = [0; 9];
    if many > 9 {
        return Ok(None);
    }
    let mut words = ones(alloc)?;
    Ok(put(&mut words, elem, 0, &bytes[..many]))
}

#[test]
fn whole_elements(rt: HostRuntime) -> Result<(), Fail> {
    for (elem, many, wanted) in [
        (Elem::Char, 9, Ok(9)),
        (Elem::Uchar, 0, Ok(0)),
        (Elem::Short, 8, Ok(4)),
        (Elem::Short, 9, Err(LengthFault { bytes: 9, size: 2 })),
        (Elem::Ushort, 1, Err(LengthFault { bytes: 1, size: 2 })),
        (Elem::Ushort, 0, Ok(0)),
        (Elem::Int, 8, Ok(2)),
        (Elem::Int, 9, Err(LengthFault { bytes: 9, size: 4 })),
        (Elem::Uint, 7, Err(LengthFault { bytes: 7, size: 4 })),
        (Elem::Uint, 6, Err(LengthFault { bytes: 6, size: 4 })),
        (Elem::Uint, 4, Ok(1)),
    ] {
        assert_eq!(rt; counted(rt.alloc(), elem, many)?, Some(wanted));
    }
    Ok(())
}

/// Whether sixteen words of ones begin with these words once these bytes were put from byte `at` on, or were refused.
fn leaves(alloc: Global, elem: Elem, at: u32, bytes: &[u8], first: &[u32]) -> Result<bool, Memory> {
    let mut words = ones(alloc)?;
    let _answer = put(&mut words, elem, at, bytes);
    Ok(words.as_slice().starts_with(first))
}

#[test]
fn bytes_beside_are_kept(rt: HostRuntime) -> Result<(), Fail> {
    for (elem, at, first) in [
        (Elem::Uchar, 0, [0x0403_0201, 0xffff_0605, 0xffff_ffff]),
        (Elem::Uchar, 3, [0x01ff_ffff, 0x0504_0302, 0xffff_ff06]),
        (Elem::Short, 4, [0xffff_ffff, 0x0403_0201, 0xffff_0605]),
        // Six bytes are no ints.
        (Elem::Int, 4, [0xffff_ffff, 0xffff_ffff, 0xffff_ffff]),
    ] {
        assert!(rt; leaves(rt.alloc(), elem, at, &[1, 2, 3, 4, 5, 6], &first)?);
    }
    Ok(())
}
