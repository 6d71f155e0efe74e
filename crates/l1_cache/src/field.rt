ghost use Rattle.std.specs.Prelude.{◌≡◌, ◌<◌};
ghost use Rattle.l1_cache.specs.Lines.{field_bits, part_of};

use vx_base::Size;

/// The bits of a word that the field of a size takes up from a byte on.
pub fn field_bits(at: u32, size: Size) -> u32
    requires { at < 4 }
    ensures { result ≡ field_bits at size }
{
    match size {
        Size::One => 0xff << (8 * at),
        Size::Two => 0xffff << (8 * at),
        Size::Four => 0xffff_ffff,
    }
}

/// The number in the field of a size from a byte of a word on.
pub fn part_of(word: u32, at: u32, size: Size) -> u32
    requires { at < 4 }
    ensures { result ≡ part_of word at size }
{
    match size {
        Size::One => (word >> (8 * at)) % 0x100,
        Size::Two => (word >> (8 * at)) % 0x1_0000,
        Size::Four => word,
    }
}
