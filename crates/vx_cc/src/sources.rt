ghost use Rattle.std.specs.Prelude.{◌≡◌, ◌⊎◌, ◌<◌, ◌≤◌, ◌^◌, ℕ, List, Ok, Err, IfOk, IfErr, length, map};
ghost use Rattle.ocl_ast.specs.Shapes.{unit_trees};
ghost use Rattle.ocl_lex.specs.Lines.{tokens_of};
ghost use Rattle.ocl_parser.specs.Faults.{AreEnded};
ghost use Rattle.ocl_parser.specs.Limits.{AreWithin};
ghost use Rattle.ocl_parser.specs.Units.{Derives};
ghost use Rattle.ocl_program.specs.Shapes.{function_node};
ghost use Rattle.ocl_types.specs.Functions.{program_of};
ghost use Rattle.vx_cc.specs.Faults.{fault_at, lex_fault, no_memory, parse_fault, type_fault};
ghost use Rattle.vx_cc.specs.Fronts.{FrontOf, Reads};

use crate::faults::{SourceFault, SourceKind};
use ocl_ast::Unit;
use ocl_check::check;
use ocl_lex::{LexFault, lex};
use ocl_parser::{ParseFault, parse};
use ocl_tokens::Tokens;
use ocl_types::{Program, TypeFault};
use std::alloc::Global;
use vx_base::Pos;

fn fault_at(pos: Pos, kind: SourceKind) -> SourceFault
    ensures { result ≡ fault_at pos kind }
{
    SourceFault { pos, kind }
}

fn no_memory() -> SourceFault
    ensures { result ≡ no_memory }
{
    fault_at(Pos { line: 1, col: 1 }, SourceKind::Memory)
}

fn lex_fault(fault: LexFault) -> SourceFault
    ensures { result ≡ lex_fault fault }
{
    match fault {
        LexFault::BadByte(pos) => fault_at(pos, SourceKind::BadByte),
        LexFault::BadNumber(pos) => fault_at(pos, SourceKind::BadNumber),
        LexFault::BadDirective(pos) => fault_at(pos, SourceKind::BadDirective),
        LexFault::OpenComment(pos) => fault_at(pos, SourceKind::OpenComment),
        LexFault::TooManyTokens(pos) => fault_at(pos, SourceKind::TooManyTokens),
        LexFault::Memory => no_memory(),
    }
}

fn parse_fault(fault: ParseFault) -> SourceFault
    ensures { result ≡ parse_fault fault }
{
    match fault {
        ParseFault::Unexpected(pos) => fault_at(pos, SourceKind::Unexpected),
        ParseFault::Subset(pos) => fault_at(pos, SourceKind::Subset),
        ParseFault::TooDeep(pos) => fault_at(pos, SourceKind::TooDeep),
        ParseFault::Memory => no_memory(),
    }
}

fn type_fault(fault: TypeFault) -> SourceFault
    ensures { result ≡ type_fault fault }
{
    match fault {
        TypeFault::Unknown(pos) => fault_at(pos, SourceKind::Unknown),
        TypeFault::Twice(pos) => fault_at(pos, SourceKind::Twice),
        TypeFault::Mismatch(pos) => fault_at(pos, SourceKind::Mismatch),
        TypeFault::Recursive(pos) => fault_at(pos, SourceKind::Recursive),
        TypeFault::TooMany { pos, what, count } => {
            fault_at(pos, SourceKind::TooMany { what, count })
        }
        TypeFault::TooNested(pos) => fault_at(pos, SourceKind::TooNested),
        TypeFault::Memory => no_memory(),
    }
}

/// The tokens of a file.
fn tokens_from(alloc: Global, source: &[u8]) -> Result<Tokens, SourceFault>
    requires { length source.now ≤ 1048576 }
    ensures tokens { IfOk result (λ tokens. tokens_of source.now ≡ Ok tokens) }
    ensures ended { IfOk result AreEnded }
    ensures few { IfOk result (λ tokens. length tokens ≤ 1048576) }
    ensures fault { IfErr result (λ fault. (fault ≡ no_memory) ⊎ FrontOf source.now (Err fault)) }
{
    match lex(alloc, source) {
        Ok(tokens) => Ok(tokens),
        Err(fault) => Err(lex_fault(fault)),
    }
}

/// The tree of a file's tokens.
fn unit_from(alloc: Global, tokens: &Tokens) -> Result<Unit, SourceFault>
    requires { AreEnded tokens.now }
    ensures derives { IfOk result (λ unit. Derives tokens.now (unit_trees unit)) }
    ensures within { IfOk result (λ unit. AreWithin (unit_trees unit)) }
    ensures few { IfOk result (λ unit. length unit.functions ≤ length tokens.now) }
    ensures fault { IfErr result (λ fault. (fault ≡ no_memory)
        ⊎ ((bytes : List ℕ) → tokens_of bytes ≡ Ok tokens.now → FrontOf bytes (Err fault))) }
{
    match parse(alloc, tokens) {
        Ok(unit) => Ok(unit),
        Err(fault) => Err(parse_fault(fault)),
    }
}

/// The program of a file's tree.
fn program_from(alloc: Global, unit: Unit) -> Result<Program, SourceFault>
    requires { length unit.functions < 2 ^ 32 }
    ensures program { IfOk result (λ program. program_of (unit_trees unit) ≡ Ok (map function_node program.functions.items)) }
    ensures fault { IfErr result (λ fault. (fault ≡ no_memory)
        ⊎ ((bytes : List ℕ) → Reads bytes (unit_trees unit) → FrontOf bytes (Err fault))) }
{
    match check(alloc, unit) {
        Ok(program) => Ok(program),
        Err(fault) => Err(type_fault(fault)),
    }
}

/// The program of a kernel file, or its first fault: of its tokens, then of its tree, then of its types.
///
/// A file has at most 1,048,576 bytes.
pub fn front(alloc: Global, source: &[u8]) -> Result<Program, SourceFault>
    requires { length source.now ≤ 1048576 }
    ensures program { IfOk result (λ program. FrontOf source.now (Ok (map function_node program.functions.items))) }
    ensures fault { IfErr result (λ fault. (fault ≡ no_memory) ⊎ FrontOf source.now (Err fault)) }
{
    let tokens = tokens_from(alloc, source)?;
    let unit = unit_from(alloc, &tokens)?;
    program_from(alloc, unit)
}
