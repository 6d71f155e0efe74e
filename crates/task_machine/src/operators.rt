//! Values of the built-in functions of numbers (OpenCL C 1.2, section 6.12.3).
ghost use Rattle.std.specs.Prelude.{◌≡◌};
ghost use Rattle.task_machine.specs.Operators.{clamped as clamped_of, greatest_of as greatest, high_product as high_of, is_less as is_less_of, least_of as least, magnitude as magnitude_of};

use vx_base::{Alu, alu_value};

/// Whether a word is less than another, both read as numbers of their type.
fn is_less(unsigned: bool, a: u32, b: u32) -> bool
    ensures { result ≡ is_less_of unsigned a b }
{
    if unsigned {
        a < b
    } else {
        a.cast_signed() < b.cast_signed()
    }
}

/// `min(a, b)`
pub fn least_of(unsigned: bool, a: u32, b: u32) -> u32
    ensures { result ≡ least unsigned a b }
{
    if is_less(unsigned, b, a) { b } else { a }
}

/// `max(a, b)`
pub fn greatest_of(unsigned: bool, a: u32, b: u32) -> u32
    ensures { result ≡ greatest unsigned a b }
{
    if is_less(unsigned, a, b) { b } else { a }
}

/// `clamp(x, low, high)`
pub fn clamped(unsigned: bool, x: u32, low: u32, high: u32) -> u32
    ensures { result ≡ clamped_of unsigned x low high }
{
    least_of(unsigned, greatest_of(unsigned, x, low), high)
}

/// `abs(x)`, which is uint.
pub fn magnitude(unsigned: bool, x: u32) -> u32
    ensures { result ≡ magnitude_of unsigned x }
{
    if is_less(unsigned, x, 0) {
        alu_value(Alu::Sub, 0, x)
    } else {
        x
    }
}

/// `mul_hi(a, b)`: the high word of the product.
pub fn high_product(unsigned: bool, a: u32, b: u32) -> u32
    ensures { result ≡ high_of unsigned a b }
{
    if unsigned {
        alu_value(Alu::Mulhu, a, b)
    } else {
        alu_value(Alu::Mulh, a, b)
    }
}
