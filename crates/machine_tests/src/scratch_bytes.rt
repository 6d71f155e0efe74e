use scratchpad::Scratch;
use std::test::Fail;
use vx_base::Size;

#[test]
fn reads_what_was_written(rt: HostRuntime) -> Result<(), Fail> {
    let mut scratch = Scratch::new(rt.alloc())?;
    assert_eq!(rt; scratch.read(1_048_572, Size::Four), Some(0));
    assert_eq!(rt; scratch.read(1_048_573, Size::Four), None);
    assert_eq!(rt; scratch.read(u32::MAX, Size::One), None);
    assert!(rt; scratch.write(0, Size::Four, 0x0102_0304));
    assert!(rt; scratch.write(3, Size::Two, 0xaabb_ccdd));
    assert!(rt; !scratch.write(1_048_575, Size::Two, 1));
    assert_eq!(rt; scratch.read(0, Size::Four), Some(0xdd02_0304));
    assert_eq!(rt; scratch.read(4, Size::One), Some(0xcc));
    assert_eq!(rt; scratch.read(1_048_575, Size::One), Some(0));
    scratch.clear_to(4);
    assert_eq!(rt; scratch.read(0, Size::Four), Some(0));
    assert_eq!(rt; scratch.read(4, Size::One), Some(0xcc));
    Ok(())
}
