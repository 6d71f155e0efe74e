use vx_base::ListOf;

/// An operator of a sum, on 32-bit words.
#[derive(Clone, Copy, Debug, PartialEq, Eq)]
pub enum Operator {
    /// `+`
    Add,
    /// `-`
    Subtract,
    /// `*`
    Multiply,
}

/// A whole number that a work-item computes.
#[derive(Debug, Drop)]
pub enum Sum {
    /// A number below 2^31.
    Number(u32),
    /// `get_global_id(0)`: the number of the work-item.
    GlobalId,
    /// `NAME[get_global_id(0)]`: the item's own element of the array of the parameter with this number.
    Element(u32),
    /// A sum in parentheses.
    Group(Box<Sum>),
    /// Two sums joined by an operator.
    Operation {
        /// The operator.
        operator: Operator,
        /// The sum before it.
        left: Box<Sum>,
        /// The sum behind it.
        right: Box<Sum>,
    },
}

/// `NAME[get_global_id(0)] = sum;`
#[derive(Debug, Drop)]
pub struct Assignment {
    /// The number of the parameter whose array's element is assigned.
    pub parameter: u32,
    /// What it becomes.
    pub value: Sum,
}

/// A kernel: how many parameters it has, and its assignments in order.
#[derive(Debug, Drop)]
pub struct Kernel {
    /// How many parameters it has, from 1 to 16. Each is a `__global int *`.
    pub parameters: u32,
    /// The assignments.
    pub assignments: ListOf<Assignment>,
}
