//! What follows of refusals from their definition.

ghost use Rattle.std.specs.Prelude.{◌≡◌, List};
ghost use Rattle.ocl_ast.specs.Trees.{FunctionTree};
ghost use Rattle.ocl_parser.specs.Faults.{IsRefused};
ghost use Rattle.ocl_parser.specs.Limits.{AreWithin};
ghost use Rattle.ocl_parser.specs.Units.{Derives};
ghost use Rattle.ocl_parser.specs.declared.parsing.ParseFault.{ParseFault};
ghost use Rattle.ocl_tokens.specs.declared.tokens.Token.{Token};

/// Tokens are refused in one way.
pub fn refused_once()
    ensures { (tokens : List Token) (one other : ParseFault) → IsRefused one tokens → IsRefused other tokens → one ≡ other }
{}

/// Refused tokens are no text of a file within the limits.
pub fn refused_none()
    ensures { (tokens : List Token) (fault : ParseFault) → IsRefused fault tokens → (fs : List FunctionTree) → Derives tokens fs → AreWithin fs → ⊥ }
{}
