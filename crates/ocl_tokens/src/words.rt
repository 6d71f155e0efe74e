/// The reserved words. Those that the grammar uses have a variant each, the others are [`LeftOut`].
#[derive(Clone, Copy, Debug, PartialEq, Eq)]
pub enum Word {
    /// `__kernel`
    UnderscoreKernel,
    /// `kernel`
    Kernel,
    /// `__global`
    UnderscoreGlobal,
    /// `global`
    Global,
    /// `__constant`
    UnderscoreConstant,
    /// `constant`
    Constant,
    /// `__local`
    UnderscoreLocal,
    /// `local`
    Local,
    /// `const`
    Const,
    /// `volatile`
    Volatile,
    /// `restrict`
    Restrict,
    /// `inline`
    Inline,
    /// `static`
    Static,
    /// `void`
    Void,
    /// `char`
    Char,
    /// `uchar`
    Uchar,
    /// `short`
    Short,
    /// `ushort`
    Ushort,
    /// `int`
    Int,
    /// `uint`
    Uint,
    /// `size_t`
    SizeT,
    /// `signed`
    Signed,
    /// `unsigned`
    Unsigned,
    /// `if`
    If,
    /// `else`
    Else,
    /// `while`
    While,
    /// `do`
    Do,
    /// `for`
    For,
    /// `break`
    Break,
    /// `continue`
    Continue,
    /// `return`
    Return,
    /// `barrier`
    Barrier,
    /// A word of OpenCL C 1.2 that the language leaves out.
    LeftOut(LeftOut),
}

/// The reserved words that stand for what the language leaves out.
#[derive(Clone, Copy, Debug, PartialEq, Eq)]
pub enum LeftOut {
    /// `float`
    Float,
    /// `double`
    Double,
    /// `half`
    Half,
    /// `long`
    Long,
    /// `ulong`
    Ulong,
    /// `bool`
    Bool,
    /// `struct`
    Struct,
    /// `union`
    Union,
    /// `enum`
    Enum,
    /// `typedef`
    Typedef,
    /// `switch`
    Switch,
    /// `case`
    Case,
    /// `default`
    Default,
    /// `goto`
    Goto,
    /// `sizeof`
    Sizeof,
    /// `extern`
    Extern,
    /// `register`
    Register,
    /// `auto`
    Auto,
    /// `image2d_t`
    Image2d,
    /// `image3d_t`
    Image3d,
    /// `sampler_t`
    Sampler,
    /// `event_t`
    Event,
    /// `__attribute__`
    Attribute,
    /// `__private`
    UnderscorePrivate,
    /// `private`
    Private,
    /// `__read_only`
    UnderscoreReadOnly,
    /// `__write_only`
    UnderscoreWriteOnly,
    /// `read_only`
    ReadOnly,
    /// `write_only`
    WriteOnly,
    /// A vector type, as `int4`.
    Vector {
        /// The type of each component.
        of: Component,
        /// How many components.
        width: Width,
    },
}

/// The types of a vector's components.
#[derive(Clone, Copy, Debug, PartialEq, Eq)]
pub enum Component {
    /// `char`
    Char,
    /// `uchar`
    Uchar,
    /// `short`
    Short,
    /// `ushort`
    Ushort,
    /// `int`
    Int,
    /// `uint`
    Uint,
    /// `long`
    Long,
    /// `ulong`
    Ulong,
    /// `float`
    Float,
    /// `double`
    Double,
}

/// How many components a vector has.
#[derive(Clone, Copy, Debug, PartialEq, Eq)]
pub enum Width {
    /// `2`
    Two,
    /// `3`
    Three,
    /// `4`
    Four,
    /// `8`
    Eight,
    /// `16`
    Sixteen,
}
