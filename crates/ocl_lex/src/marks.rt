//! The punctuators, and the longest one at the front of some bytes.
ghost use Rattle.std.specs.Prelude.{◌≡◌, IfSome, length, ◌≤◌, ◌<◌};
ghost use Rattle.ocl_lex.specs.Marks as spec;

use ocl_tokens::Mark;

/// The punctuators, those of more bytes before those of fewer.
const ALL: [Mark; 43] = [
    Mark::ShiftLeftEqual,
    Mark::ShiftRightEqual,
    Mark::ShiftLeft,
    Mark::ShiftRight,
    Mark::LessEqual,
    Mark::GreaterEqual,
    Mark::EqualEqual,
    Mark::BangEqual,
    Mark::AndAnd,
    Mark::BarBar,
    Mark::PlusEqual,
    Mark::MinusEqual,
    Mark::StarEqual,
    Mark::SlashEqual,
    Mark::PercentEqual,
    Mark::AmpersandEqual,
    Mark::CaretEqual,
    Mark::BarEqual,
    Mark::PlusPlus,
    Mark::MinusMinus,
    Mark::OpenParen,
    Mark::CloseParen,
    Mark::OpenBrace,
    Mark::CloseBrace,
    Mark::OpenBracket,
    Mark::CloseBracket,
    Mark::Semicolon,
    Mark::Comma,
    Mark::Question,
    Mark::Colon,
    Mark::Tilde,
    Mark::Bang,
    Mark::Plus,
    Mark::Minus,
    Mark::Star,
    Mark::Slash,
    Mark::Percent,
    Mark::Less,
    Mark::Greater,
    Mark::Ampersand,
    Mark::Caret,
    Mark::Bar,
    Mark::Equal,
];

/// The bytes of a punctuator.
pub fn spelling_of(mark: Mark) -> &'static [u8]
    ensures { result.now ≡ spec.spelling_of mark }
{
    match mark {
        Mark::OpenParen => b"(",
        Mark::CloseParen => b")",
        Mark::OpenBrace => b"{",
        Mark::CloseBrace => b"}",
        Mark::OpenBracket => b"[",
        Mark::CloseBracket => b"]",
        Mark::Semicolon => b";",
        Mark::Comma => b",",
        Mark::Question => b"?",
        Mark::Colon => b":",
        Mark::Tilde => b"~",
        Mark::Bang => b"!",
        Mark::Plus => b"+",
        Mark::Minus => b"-",
        Mark::Star => b"*",
        Mark::Slash => b"/",
        Mark::Percent => b"%",
        Mark::ShiftLeft => b"<<",
        Mark::ShiftRight => b">>",
        Mark::Less => b"<",
        Mark::Greater => b">",
        Mark::LessEqual => b"<=",
        Mark::GreaterEqual => b">=",
        Mark::EqualEqual => b"==",
        Mark::BangEqual => b"!=",
        Mark::Ampersand => b"&",
        Mark::Caret => b"^",
        Mark::Bar => b"|",
        Mark::AndAnd => b"&&",
        Mark::BarBar => b"||",
        Mark::Equal => b"=",
        Mark::PlusEqual => b"+=",
        Mark::MinusEqual => b"-=",
        Mark::StarEqual => b"*=",
        Mark::SlashEqual => b"/=",
        Mark::PercentEqual => b"%=",
        Mark::ShiftLeftEqual => b"<<=",
        Mark::ShiftRightEqual => b">>=",
        Mark::AmpersandEqual => b"&=",
        Mark::CaretEqual => b"^=",
        Mark::BarEqual => b"|=",
        Mark::PlusPlus => b"++",
        Mark::MinusMinus => b"--",
    }
}

/// The longest punctuator at the front of some bytes.
#[tactic(auto, unfolding(crate::specs::Marks::mark_at))]
pub fn mark_at(bytes: &[u8]) -> Option<Mark>
    ensures value { result ≡ spec.mark_at bytes.now }
    ensures within { IfSome result (λ m. length (spec.spelling_of m) ≤ length bytes.now) }
{
    ALL.iter()
        .copied()
        .find(|mark| bytes.starts_with(spelling_of(*mark)))
}
