//! The jumps, and the flags around an operation.
ghost use Rattle.std.specs.Prelude.{◌≡◌, ◌<◌, ◌^◌, suc};
ghost use Rattle.kir.specs.Shapes.{operand_of};

use kir::Operand;

/// A jump.
#[derive(Clone, Copy, Debug, PartialEq, Eq)]
pub enum Jump {
    /// `break`
    ByBreak,
    /// `continue`
    ByContinue,
    /// `return`
    ByReturn,
}

/// What the flags around an operation are: the variable `call` is 1 as long as the call around it goes on, `first` as long as the loop
/// does, and the variable behind `first` as long as the turn does.
#[derive(Clone, Copy, Debug, PartialEq, Eq)]
pub enum Scope {
    /// In a call, outside its loops.
    InCall(u32),
    /// In the body of a loop.
    InBody {
        /// The flag of the call.
        call: u32,
        /// The first of the loop's two.
        first: u32,
    },
    /// In the head or the step of a loop.
    InEdge {
        /// The flag of the call.
        call: u32,
        /// The first of the loop's two.
        first: u32,
    },
}

impl Scope {
    ghost use Rattle.kir_flow.specs.Flagging.{alive as alive_of, body_scope as body_of, edge_scope as edge_of, inside as inside_of, live as live_of, run as run_of, whole as whole_of};

    /// The flag that tells whether what is behind a jump is done.
    pub fn live(self) -> u32
        requires { live_of self < 2 ^ 32 }
        ensures { result ≡ live_of self }
    {
        match self {
            Scope::InCall(call) => call,
            Scope::InBody { first, .. } | Scope::InEdge { first, .. } => first + 1,
        }
    }

    /// The flag that tells whether the innermost loop goes on.
    pub fn run(self) -> u32
        ensures { result ≡ run_of self }
    {
        match self {
            Scope::InCall(call) => call,
            Scope::InBody { first, .. } | Scope::InEdge { first, .. } => first,
        }
    }

    /// The flag that tells whether the call goes on.
    pub fn whole(self) -> u32
        ensures { result ≡ whole_of self }
    {
        match self {
            Scope::InCall(call) => call,
            Scope::InBody { call, .. } | Scope::InEdge { call, .. } => call,
        }
    }

    /// The first variable that is free for what stands inside.
    pub fn inside(self) -> u32
        requires { inside_of self < 2 ^ 32 }
        ensures { result ≡ inside_of self }
    {
        self.live() + 1
    }

    /// The flags in the body of a loop within.
    pub fn body(self) -> Scope
        requires { inside_of self < 2 ^ 32 }
        ensures { result ≡ body_of self }
    {
        Scope::InBody {
            call: self.whole(),
            first: self.inside(),
        }
    }

    /// The flags in the head and the step of a loop within.
    pub fn edge(self) -> Scope
        requires { inside_of self < 2 ^ 32 }
        ensures { result ≡ edge_of self }
    {
        Scope::InEdge {
            call: self.whole(),
            first: self.inside(),
        }
    }

    /// What a new flag begins with: 1 where it is known that what is around it is alive.
    pub fn alive(self, sure: bool) -> Operand
        requires { live_of self < 2 ^ 32 }
        ensures { operand_of result ≡ alive_of self sure }
    {
        if sure {
            Operand::Number(1)
        } else {
            Operand::Variable(self.live())
        }
    }
}
