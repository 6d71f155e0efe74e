//! The values that a built-in function has.
ghost use Rattle.std.specs.Prelude.{◌≡◌};
ghost use Rattle.ocl_inline.specs.Shapes.{expr_of, flat_arguments};
ghost use Rattle.ocl_norm.specs.Arguments.{values_behind as values_behind_of, values_by, values_in as values_in_of, values_last as values_last_of};

use ocl_inline::trees::{FlatArgument, FlatExpr};

/// The values that are looked at.
#[derive(Clone, Copy)]
pub enum Values<'a> {
    /// There are none, or one of them is an array.
    None,
    /// The only one.
    One(&'a FlatExpr),
    /// The only two.
    Two(&'a FlatExpr, &'a FlatExpr),
    /// The first three.
    Three(&'a FlatExpr, &'a FlatExpr, &'a FlatExpr),
}

/// The values among arguments.
pub fn values_in<'a>(args: &'a [FlatArgument]) -> Values<'a>
    ensures { values_by result ≡ values_in_of (flat_arguments args.now) }
{
    if args.is_empty() {
        return Values::None;
    }
    match &args[0] {
        FlatArgument::Number { value, .. } => values_behind(value, &args[1..]),
        FlatArgument::Array(_) => Values::None,
    }
}

/// The values, where one stands before the arguments.
fn values_behind<'a>(one: &'a FlatExpr, args: &'a [FlatArgument]) -> Values<'a>
    ensures { values_by result ≡ values_behind_of (expr_of one.now) (flat_arguments args.now) }
{
    if args.is_empty() {
        return Values::One(one);
    }
    match &args[0] {
        FlatArgument::Number { value, .. } => values_last(one, value, &args[1..]),
        FlatArgument::Array(_) => Values::None,
    }
}

/// The values, where two stand before the arguments.
fn values_last<'a>(one: &'a FlatExpr, two: &'a FlatExpr, args: &'a [FlatArgument]) -> Values<'a>
    ensures { values_by result ≡ values_last_of (expr_of one.now) (expr_of two.now) (flat_arguments args.now) }
{
    if args.is_empty() {
        return Values::Two(one, two);
    }
    match &args[0] {
        FlatArgument::Number { value, .. } => Values::Three(one, two, value),
        FlatArgument::Array(_) => Values::None,
    }
}
