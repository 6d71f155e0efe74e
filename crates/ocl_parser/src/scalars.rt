ghost use Rattle.std.specs.Prelude.{◌≡◌};
ghost use Rattle.ocl_parser.specs.ScalarSteps.{scalar_first, scalar_more, signed_more, short_more};
ghost use Rattle.ocl_parser.specs.Scalars.{scalar_elem, by_sign};

use ocl_tokens::Word;
use vx_base::Elem;

/// The word before a scalar type's name.
#[derive(Clone, Copy, Debug, PartialEq, Eq)]
pub enum Sign {
    /// None.
    NoSign,
    /// `signed`
    SignedSign,
    /// `unsigned`
    UnsignedSign,
}

/// A spelling of a scalar type.
#[derive(Clone, Copy, Debug, PartialEq, Eq)]
pub enum Scalar {
    /// `signed` alone.
    OnlySigned,
    /// `unsigned` alone.
    OnlyUnsigned,
    /// `char`
    Chars(Sign),
    /// `short`
    Shorts(Sign),
    /// `short int`
    ShortInts(Sign),
    /// `int`
    Ints(Sign),
    /// `uchar`
    UcharWord,
    /// `ushort`
    UshortWord,
    /// `uint`
    UintWord,
    /// `size_t`
    SizeWord,
}

/// The spelling that begins with a word.
pub fn scalar_first(word: Word) -> Option<Scalar>
    ensures { result ≡ scalar_first word }
{
    match word {
        Word::Signed => Some(Scalar::OnlySigned),
        Word::Unsigned => Some(Scalar::OnlyUnsigned),
        Word::Char => Some(Scalar::Chars(Sign::NoSign)),
        Word::Short => Some(Scalar::Shorts(Sign::NoSign)),
        Word::Int => Some(Scalar::Ints(Sign::NoSign)),
        Word::Uchar => Some(Scalar::UcharWord),
        Word::Ushort => Some(Scalar::UshortWord),
        Word::Uint => Some(Scalar::UintWord),
        Word::SizeT => Some(Scalar::SizeWord),
        _ => None,
    }
}

/// The spelling with one word more.
pub fn scalar_more(scalar: Scalar, word: Word) -> Option<Scalar>
    ensures { result ≡ scalar_more scalar word }
{
    match scalar {
        Scalar::OnlySigned => signed_more(Sign::SignedSign, word),
        Scalar::OnlyUnsigned => signed_more(Sign::UnsignedSign, word),
        Scalar::Shorts(sign) => short_more(sign, word),
        Scalar::Chars(_)
        | Scalar::ShortInts(_)
        | Scalar::Ints(_)
        | Scalar::UcharWord
        | Scalar::UshortWord
        | Scalar::UintWord
        | Scalar::SizeWord => None,
    }
}

/// The spelling behind a sign.
fn signed_more(sign: Sign, word: Word) -> Option<Scalar>
    ensures { result ≡ signed_more sign word }
{
    match word {
        Word::Char => Some(Scalar::Chars(sign)),
        Word::Short => Some(Scalar::Shorts(sign)),
        Word::Int => Some(Scalar::Ints(sign)),
        _ => None,
    }
}

/// The spelling behind `short`.
fn short_more(sign: Sign, word: Word) -> Option<Scalar>
    ensures { result ≡ short_more sign word }
{
    match word {
        Word::Int => Some(Scalar::ShortInts(sign)),
        _ => None,
    }
}

/// The type of a spelling.
pub fn scalar_elem(scalar: Scalar) -> Elem
    ensures { result ≡ scalar_elem scalar }
{
    match scalar {
        Scalar::Chars(sign) => by_sign(sign, Elem::Char, Elem::Uchar),
        Scalar::Shorts(sign) | Scalar::ShortInts(sign) => {
            by_sign(sign, Elem::Short, Elem::Ushort)
        }
        Scalar::Ints(sign) => by_sign(sign, Elem::Int, Elem::Uint),
        Scalar::OnlySigned => Elem::Int,
        Scalar::UcharWord => Elem::Uchar,
        Scalar::UshortWord => Elem::Ushort,
        Scalar::OnlyUnsigned | Scalar::UintWord | Scalar::SizeWord => Elem::Uint,
    }
}

/// One of two types, by the sign.
fn by_sign(sign: Sign, signed: Elem, unsigned: Elem) -> Elem
    ensures { result ≡ by_sign sign signed unsigned }
{
    match sign {
        Sign::NoSign | Sign::SignedSign => signed,
        Sign::UnsignedSign => unsigned,
    }
}
