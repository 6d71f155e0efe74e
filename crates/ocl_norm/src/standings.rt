//! Where the value of an expression stands once it is evaluated.
ghost use Rattle.std.specs.Prelude.{◌≡◌, ◌<◌, ◌^◌, OnOk, option_map};
ghost use Rattle.kir.specs.Lists.{Puts};
ghost use Rattle.kir.specs.Shapes.{operand_of};
ghost use Rattle.ocl_inline.specs.Shapes.{expr_of};
ghost use Rattle.ocl_inline.specs.Trees.{written};
ghost use Rattle.ocl_norm.specs.Standings.{above, copied, held_at, operand_at, right_standing as right_standing_of, settled, standing};
ghost use Rattle.ocl_norm.specs.Views.{standing_by};

use kir::{Op, Operand, put_set};
use ocl_inline::trees::FlatExpr;
use std::alloc::AllocError;

/// Where a value stands.
#[derive(Clone, Copy, Debug, PartialEq, Eq)]
pub enum Standing {
    /// It is this number.
    Fixed(u32),
    /// It is the value of this variable of the kernel.
    Named(u32),
    /// It stands in the first variable that the expression has for itself.
    Made,
}

impl Standing {
    /// The value, where the first variable is this one.
    pub fn operand(self, first: u32) -> Operand
        ensures { operand_of result ≡ operand_at (standing_by self) first }
    {
        match self {
            Standing::Fixed(n) => Operand::Number(n),
            Standing::Named(k) => Operand::Variable(k),
            Standing::Made => Operand::Variable(first),
        }
    }

    /// The value, where it is used only behind another part, which may have calls.
    pub fn held(self, calls: bool, first: u32) -> Operand
        ensures { operand_of result ≡ held_at calls (standing_by self) first }
    {
        match self {
            Standing::Fixed(n) => Operand::Number(n),
            Standing::Named(k) => Operand::Variable(if calls { first } else { k }),
            Standing::Made => Operand::Variable(first),
        }
    }

    /// The first variable that the other part has for itself.
    pub fn above(self, calls: bool, first: u32) -> u32
        requires room { above calls (standing_by self) first < 2 ^ 32 }
        ensures { result ≡ above calls (standing_by self) first }
    {
        match self {
            Standing::Fixed(_) => first,
            Standing::Named(_) => { if calls { first + 1 } else { first } }
            Standing::Made => first + 1,
        }
    }
}

/// Two values that are used together.
#[derive(Clone, Copy, Debug, PartialEq, Eq)]
pub struct Pair {
    /// The first one.
    pub left: Operand,
    /// The second one.
    pub right: Operand,
}

/// A variable of the kernel is copied before a part that may have calls.
pub fn put_copied(
    out: &mut Vec<Op>,
    calls: bool,
    held: Standing,
    first: u32,
) -> Result<(), AllocError>
    ensures { OnOk result (Puts out.old.items out.new.items (copied calls (standing_by held) first)) }
{
    match held {
        Standing::Named(k) if calls => put_set(out, first, Operand::Variable(k)),
        Standing::Fixed(_) | Standing::Named(_) | Standing::Made => Ok(()),
    }
}

/// A value that has to stand in the first variable.
pub fn put_settled(out: &mut Vec<Op>, held: Standing, first: u32) -> Result<(), AllocError>
    ensures { OnOk result (Puts out.old.items out.new.items (settled (standing_by held) first)) }
{
    match held {
        Standing::Fixed(_) | Standing::Named(_) => put_set(out, first, held.operand(first)),
        Standing::Made => Ok(()),
    }
}

/// Where the value of an expression stands.
pub fn standing_of(expr: &FlatExpr) -> Standing
    ensures { standing_by result ≡ standing (expr_of expr.now) }
{
    match expr {
        FlatExpr::Number { value, .. } => Standing::Fixed(*value),
        FlatExpr::Variable(variable) => Standing::Named(*variable),
        FlatExpr::Lost { .. } => Standing::Fixed(0),
        FlatExpr::Paren(part) => standing_of(part),
        FlatExpr::Unary { .. } | FlatExpr::Binary { .. } | FlatExpr::Cast { .. } => Standing::Made,
        FlatExpr::Both { .. } | FlatExpr::Either { .. } | FlatExpr::Choose { .. } => Standing::Made,
        FlatExpr::Load { .. } | FlatExpr::Call { .. } | FlatExpr::Builtin { .. } => Standing::Made,
    }
}

/// The value of an expression, where its first variable is this one.
pub fn operand_in(expr: &FlatExpr, first: u32) -> Operand
    ensures { operand_of result ≡ operand_at (standing (expr_of expr.now)) first }
{
    standing_of(expr).operand(first)
}

/// Where the right side of an assignment stands: of `++` and `--` it is 1.
pub fn right_standing(value: &Option<Box<FlatExpr>>) -> Standing
    ensures { standing_by result ≡ right_standing_of (written (option_map (λ b. expr_of b.value) value.now)) }
{
    match value {
        Some(expr) => standing_of(expr),
        None => Standing::Fixed(1),
    }
}

/// The value of a right side, where its first variable is this one.
pub fn operand_right(value: &Option<Box<FlatExpr>>, first: u32) -> Operand
    ensures { operand_of result ≡ operand_at (right_standing_of (written (option_map (λ b. expr_of b.value) value.now))) first }
{
    right_standing(value).operand(first)
}
