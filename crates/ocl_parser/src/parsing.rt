ghost use Rattle.std.specs.Prelude.{◌≡◌, ◌⊎◌, ◌≤◌, [], List, Some, None, map, length, if◌then◌else◌, IfOk, IfErr};
ghost use Rattle.ocl_tokens.specs.declared.tokens.Token.{Token};
ghost use Rattle.ocl_ast.specs.Shapes.{function_tree, unit_trees};
ghost use Rattle.ocl_ast.specs.Trees.{FunctionTree};
ghost use Rattle.ocl_parser.specs.Faults.{AreEnded, is_left_out, IsRefused, IsRefusalOf, IsStep, IsStop};
ghost use Rattle.ocl_parser.specs.Limits.{AreWithin};
ghost use Rattle.ocl_parser.specs.Rooms.{HasRoom};
ghost use Rattle.ocl_parser.specs.Runs.{run, ended};
ghost use Rattle.ocl_parser.specs.Units.{Derives};
ghost use Rattle.ocl_parser.specs.UnitSteps.{unit_step};

use crate::limits::is_within;
use crate::moves::UnitMove;
use crate::states::UnitFocus;
use crate::unit_steps::unit_step;
use ocl_ast::{FunctionList, Unit};
use ocl_tokens::{Token, TokenKind, Tokens, Word};
use std::alloc::Global;
use thiserror::Error;
use vx_base::Pos;

/// Why tokens are refused, with the place of the first token behind which no file within the limits goes on.
#[derive(Clone, Copy, Debug, PartialEq, Eq, Error)]
pub enum ParseFault {
    /// No file goes on with the token.
    #[error("{0}: no file goes on with this token")]
    Unexpected(Pos),
    /// No file goes on with the token, which stands for what the language leaves out.
    #[error("{0}: this word is not in the subset of the language")]
    Subset(Pos),
    /// Files that go on with the token have more than 31 levels of statements, or an expression higher than 128.
    #[error("{0}: more than 31 levels of statements, or an expression higher than 128")]
    TooDeep(Pos),
    /// Memory ran out.
    #[error("memory ran out")]
    Memory,
}

/// The functions of a file's tokens.
#[tactic(auto, using(crate::proofs::RunSteps::read_is, crate::proofs::CountLaws::read_few))]
pub fn parse(alloc: Global, tokens: &Tokens) -> Result<Unit, ParseFault>
    ensures derives { IfOk result (λ unit. Derives tokens.now (unit_trees unit)) }
    ensures alone { IfOk result (λ unit. (fs : List FunctionTree) → Derives tokens.now fs → unit_trees unit ≡ fs) }
    ensures few { IfOk result (λ unit. length unit.functions ≤ length tokens.now) }
    ensures within { IfOk result (λ unit. AreWithin (unit_trees unit)) }
    ensures refused { IfErr result (λ fault. (fault ≡ ParseFault.Memory) ⊎ (AreEnded tokens.now → IsRefused fault tokens.now)) }
    ensures read { IfErr result (λ fault. (fs : List FunctionTree) → Derives tokens.now fs → AreWithin fs → fault ≡ ParseFault.Memory) }
{
    let functions = read_all(alloc, tokens.as_slice())?;
    Ok(Unit { functions })
}

/// A file has at most as many functions as tokens.
#[tactic(auto, using(crate::proofs::CountLaws::derived_few))]
pub fn functions_are_few()
    ensures { (tokens : List Token) (functions : List FunctionTree) → Derives tokens functions → length functions ≤ length tokens }
{}

/// The functions that the reader makes of the tokens.
#[tactic(auto, using(crate::proofs::RunSteps::none_ended))]
fn read_all(alloc: Global, tokens: &[Token]) -> Result<FunctionList, ParseFault>
    ensures functions { IfOk result (λ functions. run UnitFocus.Outside [] tokens.now ≡ Some (map function_tree functions)) }
    ensures within { IfOk result (λ functions. AreWithin (map function_tree functions)) }
    ensures refused { IfErr result (λ fault. (fault ≡ ParseFault.Memory) ⊎ (AreEnded tokens.now → IsRefused fault tokens.now)) }
    ensures read { IfErr result (λ fault. (fs : List FunctionTree) → Derives tokens.now fs → AreWithin fs → fault ≡ ParseFault.Memory) }
{
    let mut functions = FunctionList {
        items: Vec::new(alloc),
    };
    let mut focus = UnitFocus::Outside;
    let mut last = Pos { line: 1, col: 1 };
    for token in tokens {
        last = token.pos;
        match read_token(alloc, token, focus, &mut functions) {
            Ok(next) => focus = next,
            Err(fault) => {
                drop(functions);
                return Err(fault);
            }
        }
    }
    if is_ended(&focus) {
        drop(focus);
        Ok(functions)
    } else {
        drop(focus);
        drop(functions);
        Err(ParseFault::Unexpected(last))
    }
}

/// Whether the whole file has been read.
fn is_ended(focus: &UnitFocus) -> bool
    ensures { (fs : List FunctionTree) → ended focus.now fs ≡ (if result then Some fs else None) }
{
    match focus {
        UnitFocus::AtEnd => true,
        _ => false,
    }
}

/// Reads a token, which may end a function.
#[tactic(auto, using(crate::proofs::RunSteps::step_reads, crate::proofs::RunSteps::step_adds, crate::proofs::RunSteps::stops_on, crate::proofs::RunSteps::too_deep))]
fn read_token(
    alloc: Global,
    token: &Token,
    focus: UnitFocus,
    functions: &mut FunctionList,
) -> Result<UnitFocus, ParseFault>
    ensures goes { IfOk result (λ next. IsStep (unit_step token.now.kind token.now.pos focus) next (map function_tree functions.old) (map function_tree functions.new)) }
    ensures room { IfOk result (λ next. HasRoom next) }
    ensures stops { IfErr result (λ fault. (fault ≡ ParseFault.Memory) ⊎ IsStop fault token.now (unit_step token.now.kind token.now.pos focus)) }
{
    match unit_step(alloc, &token.kind, token.pos, focus) {
        Err(_memory) => Err(ParseFault::Memory),
        Ok(UnitMove::Refused) => Err(refusal(token)),
        Ok(UnitMove::Added(function)) => match functions.items.push(function) {
            Ok(()) => Ok(UnitFocus::Outside),
            Err(_refused) => Err(ParseFault::Memory),
        },
        Ok(UnitMove::On(next)) => {
            if is_within(&next) {
                Ok(next)
            } else {
                drop(next);
                Err(ParseFault::TooDeep(token.pos))
            }
        }
    }
}

/// Why a token is refused with which no file goes on.
fn refusal(token: &Token) -> ParseFault
    ensures { IsRefusalOf result token.now }
{
    if is_left_out(&token.kind) {
        ParseFault::Subset(token.pos)
    } else {
        ParseFault::Unexpected(token.pos)
    }
}

/// Whether a token stands for what the language leaves out.
fn is_left_out(kind: &TokenKind) -> bool
    ensures { result ≡ is_left_out kind.now }
{
    match kind {
        TokenKind::Word(Word::LeftOut(_)) => true,
        _ => false,
    }
}
