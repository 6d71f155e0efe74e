//! Words as numbers, as sets, and as bytes.
use vx_base::{Alu, Elem, Size, alu_value, fit, get_le, lanes_mask, least, put_le};

// The rules of the manual, worked by hand; 0xffff_fff9 is -7.
#[test]
fn computes_each_operation(rt: HostRuntime) {
    for (op, a, b, want) in [
        (Alu::Add, 0xffff_ffff, 2, 1),
        (Alu::Sub, 3, 5, 0xffff_fffe),
        (Alu::Sll, 1, 33, 2),
        (Alu::Slt, 0xffff_ffff, 1, 1),
        (Alu::Sltu, 0xffff_ffff, 1, 0),
        (Alu::Xor, 0b1100, 0b1010, 0b0110),
        (Alu::Srl, 0x8000_0000, 4, 0x0800_0000),
        (Alu::Sra, 0x8000_0000, 4, 0xf800_0000),
        (Alu::Or, 0b1100, 0b1010, 0b1110),
        (Alu::And, 0b1100, 0b1010, 0b1000),
        (Alu::Mul, 0x0001_0001, 0x0001_0001, 0x0002_0001),
        (Alu::Mulh, 0x8000_0000, 0x8000_0000, 0x4000_0000),
        (Alu::Mulh, 0xffff_ffff, 0xffff_ffff, 0),
        (Alu::Mulhsu, 0xffff_ffff, 0xffff_ffff, 0xffff_ffff),
        (Alu::Mulhu, 0xffff_ffff, 0xffff_ffff, 0xffff_fffe),
        (Alu::Div, 0xffff_fff9, 2, 0xffff_fffd),
        (Alu::Div, 7, 0, 0xffff_ffff),
        (Alu::Div, 0x8000_0000, 0xffff_ffff, 0x8000_0000),
        (Alu::Divu, 0xffff_fff9, 2, 0x7fff_fffc),
        (Alu::Divu, 7, 0, 0xffff_ffff),
        (Alu::Rem, 0xffff_fff9, 2, 0xffff_ffff),
        (Alu::Rem, 0xffff_fff9, 0, 0xffff_fff9),
        (Alu::Rem, 0x8000_0000, 0xffff_ffff, 0),
        (Alu::Remu, 0xffff_fff9, 2, 1),
        (Alu::Remu, 7, 0, 7),
    ] {
        assert!(rt; alu_value(op, a, b) == want, "{a:#x} and {b:#x}");
    }
}

#[test]
fn fits_each_element(rt: HostRuntime) {
    for (elem, v, want, size) in [
        (Elem::Char, 0xff, 0xffff_ffff, Size::One),
        (Elem::Char, 0x17f, 0x7f, Size::One),
        (Elem::Uchar, 300, 44, Size::One),
        (Elem::Short, 0x8000, 0xffff_8000, Size::Two),
        (Elem::Ushort, 0x0001_8000, 0x8000, Size::Two),
        (Elem::Int, 0x8000_0000, 0x8000_0000, Size::Four),
        (Elem::Uint, 0xffff_ffff, 0xffff_ffff, Size::Four),
    ] {
        assert!(rt; fit(elem, v) == want && elem.size() == size, "{v:#x}");
    }
}

#[test]
fn reads_and_writes_fields(rt: HostRuntime) {
    let mut bytes = [0x11, 0x22, 0x33, 0x44, 0x55];
    assert_eq!(rt; get_le(&bytes, 0, Size::One), 0x11);
    assert_eq!(rt; get_le(&bytes, 1, Size::Two), 0x3322);
    assert_eq!(rt; get_le(&bytes, 1, Size::Four), 0x5544_3322);
    put_le(&mut bytes, 3, Size::One, 0xaabb_ccdd);
    assert_eq!(rt; bytes, [0x11, 0x22, 0x33, 0xdd, 0x55]);
    put_le(&mut bytes, 1, Size::Two, 0x0102_0304);
    assert_eq!(rt; bytes, [0x11, 0x04, 0x03, 0xdd, 0x55]);
    put_le(&mut bytes, 1, Size::Four, 0x0102_0304);
    assert_eq!(rt; bytes, [0x11, 0x04, 0x03, 0x02, 0x01]);
    assert_eq!(rt; Size::Two.bytes(), 2);
}

#[test]
fn masks_lanes_and_finds_the_least(rt: HostRuntime) {
    assert_eq!(rt; lanes_mask(1), 1);
    assert_eq!(rt; lanes_mask(4), 0b1111);
    assert_eq!(rt; lanes_mask(32), 0xffff_ffff);
    assert_eq!(rt; least(0), None);
    assert_eq!(rt; least(0b1100), Some(2));
    assert_eq!(rt; least(0x8000_0000), Some(31));
}
