ghost use Rattle.std.specs.Prelude.{◌≡◌};
ghost use Rattle.ocl_parser.specs.ExprSteps.{infix_of, unary_of, infix_level};
ghost use Rattle.ocl_parser.specs.Exprs.{level_of};
ghost use Rattle.ocl_parser.specs.StmtSteps.{set_of, count_of};

use ocl_ast::{AssignOp, BinOp, UnOp};
use ocl_tokens::Mark;

/// An operator between two operands.
#[derive(Clone, Copy, Debug, PartialEq, Eq)]
pub enum Infix {
    /// One whose operands are both evaluated.
    Op(BinOp),
    /// `&&`
    Both,
    /// `||`
    Either,
}

/// The operator between two operands that a punctuator is.
pub fn infix_of(mark: Mark) -> Option<Infix>
    ensures { result ≡ infix_of mark }
{
    Some(match mark {
        Mark::Star => Infix::Op(BinOp::Mul),
        Mark::Slash => Infix::Op(BinOp::Div),
        Mark::Percent => Infix::Op(BinOp::Rem),
        Mark::Plus => Infix::Op(BinOp::Add),
        Mark::Minus => Infix::Op(BinOp::Sub),
        Mark::ShiftLeft => Infix::Op(BinOp::Shl),
        Mark::ShiftRight => Infix::Op(BinOp::Shr),
        Mark::Less => Infix::Op(BinOp::Lt),
        Mark::Greater => Infix::Op(BinOp::Gt),
        Mark::LessEqual => Infix::Op(BinOp::Le),
        Mark::GreaterEqual => Infix::Op(BinOp::Ge),
        Mark::EqualEqual => Infix::Op(BinOp::Eq),
        Mark::BangEqual => Infix::Op(BinOp::Ne),
        Mark::Ampersand => Infix::Op(BinOp::And),
        Mark::Caret => Infix::Op(BinOp::Xor),
        Mark::Bar => Infix::Op(BinOp::Or),
        Mark::AndAnd => Infix::Both,
        Mark::BarBar => Infix::Either,
        _ => return None,
    })
}

/// The operator before its operand that a punctuator is.
pub fn unary_of(mark: Mark) -> Option<UnOp>
    ensures { result ≡ unary_of mark }
{
    match mark {
        Mark::Plus => Some(UnOp::Plus),
        Mark::Minus => Some(UnOp::Minus),
        Mark::Bang => Some(UnOp::Not),
        Mark::Tilde => Some(UnOp::Flip),
        _ => None,
    }
}

/// The operator of an assignment with a value that a punctuator is.
pub fn set_of(mark: Mark) -> Option<AssignOp>
    ensures { result ≡ set_of mark }
{
    match mark {
        Mark::Equal => Some(AssignOp::Set),
        Mark::PlusEqual => Some(AssignOp::With(BinOp::Add)),
        Mark::MinusEqual => Some(AssignOp::With(BinOp::Sub)),
        Mark::StarEqual => Some(AssignOp::With(BinOp::Mul)),
        Mark::SlashEqual => Some(AssignOp::With(BinOp::Div)),
        Mark::PercentEqual => Some(AssignOp::With(BinOp::Rem)),
        Mark::ShiftLeftEqual => Some(AssignOp::With(BinOp::Shl)),
        Mark::ShiftRightEqual => Some(AssignOp::With(BinOp::Shr)),
        Mark::AmpersandEqual => Some(AssignOp::With(BinOp::And)),
        Mark::CaretEqual => Some(AssignOp::With(BinOp::Xor)),
        Mark::BarEqual => Some(AssignOp::With(BinOp::Or)),
        _ => None,
    }
}

/// `++` or `--`.
pub fn count_of(mark: Mark) -> Option<AssignOp>
    ensures { result ≡ count_of mark }
{
    match mark {
        Mark::PlusPlus => Some(AssignOp::Up),
        Mark::MinusMinus => Some(AssignOp::Down),
        _ => None,
    }
}

/// How tightly an operator binds: 1 for `||`, 2 for `&&`, and so up to 10 for the products.
pub fn infix_level(op: Infix) -> u32
    ensures { result ≡ infix_level op }
{
    match op {
        Infix::Op(op) => level_of(op),
        Infix::Both => 2,
        Infix::Either => 1,
    }
}

/// The same of an operator whose operands are both evaluated: from 3 for `|` up to 10 for the products.
fn level_of(op: BinOp) -> u32
    ensures { result ≡ level_of op }
{
    match op {
        BinOp::Mul | BinOp::Div | BinOp::Rem => 10,
        BinOp::Add | BinOp::Sub => 9,
        BinOp::Shl | BinOp::Shr => 8,
        BinOp::Lt | BinOp::Gt | BinOp::Le | BinOp::Ge => 7,
        BinOp::Eq | BinOp::Ne => 6,
        BinOp::And => 5,
        BinOp::Xor => 4,
        BinOp::Or => 3,
    }
}
