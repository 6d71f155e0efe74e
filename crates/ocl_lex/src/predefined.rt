//! The macros that are there from the start (OpenCL C 1.2, sections 6.10 and 6.12.3.1).
ghost use Rattle.std.specs.Prelude.{◌≡◌, IfOk};
ghost use Rattle.ocl_lex.specs.Macros as spec;

use crate::parts::Lexeme;
use ocl_tokens::Mark;
use std::alloc::{AllocError, Global};

/// A macro that is there from the start.
#[derive(Clone, Copy, Debug, PartialEq, Eq)]
pub enum Predefined {
    /// `__OPENCL_VERSION__`: 120, the version of OpenCL.
    OpenclVersion,
    /// `__OPENCL_C_VERSION__`: 120, the version of OpenCL C.
    OpenclCVersion,
    /// `CL_VERSION_1_2`: `120`.
    Version12,
    /// `CLK_LOCAL_MEM_FENCE`: `1`.
    LocalFence,
    /// `CLK_GLOBAL_MEM_FENCE`: `2`.
    GlobalFence,
    /// `CHAR_BIT`: `8`.
    CharBit,
    /// `CHAR_MAX`: `127`.
    CharMax,
    /// `SCHAR_MAX`: `127`.
    ScharMax,
    /// `CHAR_MIN`: `(-127 - 1)`.
    CharMin,
    /// `SCHAR_MIN`: `(-127 - 1)`.
    ScharMin,
    /// `SHRT_MAX`: `32767`.
    ShrtMax,
    /// `SHRT_MIN`: `(-32767 - 1)`.
    ShrtMin,
    /// `INT_MAX`: `2147483647`.
    IntMax,
    /// `INT_MIN`: `(-2147483647 - 1)`.
    IntMin,
    /// `UCHAR_MAX`: `255`.
    UcharMax,
    /// `USHRT_MAX`: `65535`.
    UshrtMax,
    /// `UINT_MAX`: `0xffffffff`.
    UintMax,
}

/// All of them.
pub const ALL: [Predefined; 17] = [
    Predefined::OpenclVersion,
    Predefined::OpenclCVersion,
    Predefined::Version12,
    Predefined::LocalFence,
    Predefined::GlobalFence,
    Predefined::CharBit,
    Predefined::CharMax,
    Predefined::ScharMax,
    Predefined::CharMin,
    Predefined::ScharMin,
    Predefined::ShrtMax,
    Predefined::ShrtMin,
    Predefined::IntMax,
    Predefined::IntMin,
    Predefined::UcharMax,
    Predefined::UshrtMax,
    Predefined::UintMax,
];

/// The name of a macro that is there from the start.
pub fn predefined_name(predefined: Predefined) -> &'static [u8]
    ensures { result.now ≡ spec.predefined_name predefined }
{
    match predefined {
        Predefined::OpenclVersion => b"__OPENCL_VERSION__",
        Predefined::OpenclCVersion => b"__OPENCL_C_VERSION__",
        Predefined::Version12 => b"CL_VERSION_1_2",
        Predefined::LocalFence => b"CLK_LOCAL_MEM_FENCE",
        Predefined::GlobalFence => b"CLK_GLOBAL_MEM_FENCE",
        Predefined::CharBit => b"CHAR_BIT",
        Predefined::CharMax => b"CHAR_MAX",
        Predefined::ScharMax => b"SCHAR_MAX",
        Predefined::CharMin => b"CHAR_MIN",
        Predefined::ScharMin => b"SCHAR_MIN",
        Predefined::ShrtMax => b"SHRT_MAX",
        Predefined::ShrtMin => b"SHRT_MIN",
        Predefined::IntMax => b"INT_MAX",
        Predefined::IntMin => b"INT_MIN",
        Predefined::UcharMax => b"UCHAR_MAX",
        Predefined::UshrtMax => b"USHRT_MAX",
        Predefined::UintMax => b"UINT_MAX",
    }
}

fn int(value: u32) -> Lexeme
    ensures { result ≡ spec.int value }
{
    Lexeme::Number {
        value,
        unsigned: false,
    }
}

fn one_number(alloc: Global, value: u32) -> Result<Vec<Lexeme>, AllocError>
    ensures { IfOk result (λ parts. parts.items ≡ spec.one_number value) }
{
    Vec::from_slice(alloc, &[int(value)])
}

fn minus_number_minus_one(alloc: Global, value: u32) -> Result<Vec<Lexeme>, AllocError>
    ensures { IfOk result (λ parts. parts.items ≡ spec.minus_number_minus_one value) }
{
    let minus = Lexeme::Mark(Mark::Minus);
    let parts = [
        Lexeme::Mark(Mark::OpenParen),
        minus,
        int(value),
        minus,
        int(1),
        Lexeme::Mark(Mark::CloseParen),
    ];
    Vec::from_slice(alloc, &parts)
}

/// The replacement of a macro that is there from the start.
pub fn predefined_body(alloc: Global, predefined: Predefined) -> Result<Vec<Lexeme>, AllocError>
    ensures { IfOk result (λ parts. parts.items ≡ spec.predefined_body predefined) }
{
    match predefined {
        Predefined::OpenclVersion | Predefined::OpenclCVersion | Predefined::Version12 => {
            one_number(alloc, 120)
        }
        Predefined::LocalFence => one_number(alloc, 1),
        Predefined::GlobalFence => one_number(alloc, 2),
        Predefined::CharBit => one_number(alloc, 8),
        Predefined::CharMax | Predefined::ScharMax => one_number(alloc, 127),
        Predefined::CharMin | Predefined::ScharMin => minus_number_minus_one(alloc, 127),
        Predefined::ShrtMax => one_number(alloc, 32767),
        Predefined::ShrtMin => minus_number_minus_one(alloc, 32767),
        Predefined::IntMax => one_number(alloc, 2147483647),
        Predefined::IntMin => minus_number_minus_one(alloc, 2147483647),
        Predefined::UcharMax => one_number(alloc, 255),
        Predefined::UshrtMax => one_number(alloc, 65535),
        Predefined::UintMax => Vec::from_slice(
            alloc,
            &[Lexeme::Number {
                value: 4294967295,
                unsigned: true,
            }],
        ),
    }
}
