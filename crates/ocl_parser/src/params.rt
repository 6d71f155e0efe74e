ghost use Rattle.std.specs.Prelude.{◌≡◌, [], ◌++◌, ◌∷◌, IfOk, OnOk};
ghost use Rattle.ocl_parser.specs.Moves.{unit_next};
ghost use Rattle.ocl_parser.specs.Units.{is_constant};
ghost use Rattle.ocl_parser.specs.UnitSteps.{Fails, open_params, close_params, params_step, param_word, with_space, param_scalar, and_param, scalar_param, pointer_param, type_step, param_more, scalar_word_step, starred_step, named_step};

use crate::moves::UnitMove;
use crate::names::ident;
use crate::scalars::{Scalar, scalar_elem, scalar_first, scalar_more};
use crate::states::{Head, UnitFocus};
use ocl_ast::{Param, ParamList};
use ocl_tokens::{Mark, TokenKind, Word};
use std::alloc::Global;
use vx_base::{Elem, Memory, ParamKind, Pos, Space, Text};

/// Refuses a token behind a function's head and parameters, and lets go of them.
fn refuse(head: Head, params: ParamList) -> UnitMove
    ensures { unit_next result ≡ Fails }
{
    drop(head);
    drop(params);
    UnitMove::Refused
}

/// A token behind the `(` of parameters.
pub fn open_params(alloc: Global, kind: &TokenKind, head: Head) -> UnitMove
    ensures { unit_next result ≡ open_params kind.now head }
{
    let params = ParamList {
        items: Vec::new(alloc),
    };
    match kind {
        TokenKind::Mark(Mark::CloseParen) => { UnitMove::On(UnitFocus::ParamsClosed(head, params)) }
        TokenKind::Word(Word::Void) => UnitMove::On(UnitFocus::VoidRead(head)),
        _ => params_step(kind, head, params, None, false),
    }
}

/// The `)` of parameters.
pub fn close_params(kind: &TokenKind, head: Head, params: ParamList) -> UnitMove
    ensures { unit_next result ≡ close_params kind.now head params }
{
    match kind {
        TokenKind::Mark(Mark::CloseParen) => { UnitMove::On(UnitFocus::ParamsClosed(head, params)) }
        _ => refuse(head, params),
    }
}

/// A token of a parameter up to the first word of its type.
pub fn params_step(
    kind: &TokenKind,
    head: Head,
    params: ParamList,
    space: Option<Space>,
    constant: bool,
) -> UnitMove
    ensures { unit_next result ≡ params_step kind.now head params space constant }
{
    match kind {
        TokenKind::Word(word) => param_word(*word, head, params, space, constant),
        _ => refuse(head, params),
    }
}

/// A word of a parameter up to the first of its type.
fn param_word(
    word: Word,
    head: Head,
    params: ParamList,
    space: Option<Space>,
    constant: bool,
) -> UnitMove
    ensures { unit_next result ≡ param_word word head params space constant }
{
    match word {
        Word::Const => UnitMove::On(UnitFocus::ParamWords(head, params, space, true)),
        Word::Volatile => UnitMove::On(UnitFocus::ParamWords(head, params, space, constant)),
        Word::UnderscoreGlobal | Word::Global => {
            with_space(head, params, space, constant, Space::Global)
        }
        Word::UnderscoreConstant | Word::Constant => {
            with_space(head, params, space, constant, Space::Constant)
        }
        Word::UnderscoreLocal | Word::Local => {
            with_space(head, params, space, constant, Space::Local)
        }
        _ => param_scalar(scalar_first(word), head, params, space, constant),
    }
}

/// The word of an address space, where none stood before.
fn with_space(
    head: Head,
    params: ParamList,
    space: Option<Space>,
    constant: bool,
    found: Space,
) -> UnitMove
    ensures { unit_next result ≡ with_space head params space constant found }
{
    match space {
        None => UnitMove::On(UnitFocus::ParamWords(head, params, Some(found), constant)),
        Some(_) => refuse(head, params),
    }
}

/// A parameter up to words of its type.
fn param_scalar(
    scalar: Option<Scalar>,
    head: Head,
    params: ParamList,
    space: Option<Space>,
    constant: bool,
) -> UnitMove
    ensures { unit_next result ≡ param_scalar scalar head params space constant }
{
    match scalar {
        Some(scalar) => {
            UnitMove::On(UnitFocus::ParamScalar(head, params, space, constant, scalar))
        }
        None => refuse(head, params),
    }
}

/// One parameter more.
fn push_param(
    alloc: Global,
    params: &mut ParamList,
    text: &Text,
    pos: Pos,
    kind: ParamKind,
    constant: bool,
) -> Result<(), Memory>
    ensures { OnOk result (params.new ≡ and_param params.old text.now pos kind constant) }
{
    let name = ident(alloc, text, pos)?;
    params.items.push(Param {
        name,
        kind,
        constant,
    })?;
    Ok(())
}

/// The name of a parameter without an address space.
fn scalar_param(
    alloc: Global,
    space: Option<Space>,
    text: &Text,
    pos: Pos,
    head: Head,
    params: ParamList,
    constant: bool,
    elem: Elem,
) -> Result<UnitMove, Memory>
    ensures { IfOk result (λ next. unit_next next ≡ scalar_param space text.now pos head params constant elem) }
{
    match space {
        None => {
            let mut params = params;
            let kind = ParamKind::Scalar(elem);
            match push_param(alloc, &mut params, text, pos, kind, constant) {
                Ok(()) => Ok(UnitMove::On(UnitFocus::ParamNamed(head, params))),
                Err(memory) => {
                    drop(head);
                    drop(params);
                    Err(memory)
                }
            }
        }
        Some(_) => Ok(refuse(head, params)),
    }
}

/// The `*` of a parameter with an address space.
fn pointer_param(
    space: Option<Space>,
    head: Head,
    params: ParamList,
    constant: bool,
    elem: Elem,
) -> UnitMove
    ensures { unit_next result ≡ pointer_param space head params constant elem }
{
    match space {
        None => refuse(head, params),
        Some(space) => {
            let readonly = constant || is_constant(space);
            let kind = ParamKind::Pointer {
                space,
                elem,
                readonly,
            };
            UnitMove::On(UnitFocus::Starred(head, params, kind, false))
        }
    }
}

/// Whether elements there are never assigned.
fn is_constant(space: Space) -> bool
    ensures { result ≡ is_constant space }
{
    match space {
        Space::Constant => true,
        Space::Global | Space::Local => false,
    }
}

/// A token behind a parameter's type.
pub fn type_step(
    alloc: Global,
    kind: &TokenKind,
    pos: Pos,
    head: Head,
    params: ParamList,
    space: Option<Space>,
    constant: bool,
    elem: Elem,
) -> Result<UnitMove, Memory>
    ensures { IfOk result (λ next. unit_next next ≡ type_step kind.now pos head params space constant elem) }
{
    match kind {
        TokenKind::Name(text) => {
            scalar_param(alloc, space, text, pos, head, params, constant, elem)
        }
        TokenKind::Mark(Mark::Star) => Ok(pointer_param(space, head, params, constant, elem)),
        TokenKind::Word(Word::Const) => {
            Ok(UnitMove::On(UnitFocus::ParamType(head, params, space, true, elem)))
        }
        TokenKind::Word(Word::Volatile) => {
            Ok(UnitMove::On(UnitFocus::ParamType(head, params, space, constant, elem)))
        }
        _ => Ok(refuse(head, params)),
    }
}

/// A token behind words of a parameter's type.
pub fn scalar_word_step(
    alloc: Global,
    kind: &TokenKind,
    pos: Pos,
    head: Head,
    params: ParamList,
    space: Option<Space>,
    constant: bool,
    scalar: Scalar,
) -> Result<UnitMove, Memory>
    ensures { IfOk result (λ next. unit_next next ≡ scalar_word_step kind.now pos head params space constant scalar) }
{
    match kind {
        TokenKind::Word(word) => {
            let more = scalar_more(scalar, *word);
            param_more(
                alloc, more, kind, pos, head, params, space, constant, scalar,
            )
        }
        _ => type_step(
            alloc,
            kind,
            pos,
            head,
            params,
            space,
            constant,
            scalar_elem(scalar),
        ),
    }
}

/// A word behind words of a parameter's type, which may go on with it.
fn param_more(
    alloc: Global,
    more: Option<Scalar>,
    kind: &TokenKind,
    pos: Pos,
    head: Head,
    params: ParamList,
    space: Option<Space>,
    constant: bool,
    scalar: Scalar,
) -> Result<UnitMove, Memory>
    ensures { IfOk result (λ next. unit_next next ≡ param_more more kind.now pos head params space constant scalar) }
{
    match more {
        Some(more) => Ok(UnitMove::On(UnitFocus::ParamScalar(head, params, space, constant, more))),
        None => type_step(
            alloc,
            kind,
            pos,
            head,
            params,
            space,
            constant,
            scalar_elem(scalar),
        ),
    }
}

/// A token behind the `*` of a parameter.
pub fn starred_step(
    alloc: Global,
    kind: &TokenKind,
    pos: Pos,
    head: Head,
    params: ParamList,
    pointer: ParamKind,
    constant: bool,
) -> Result<UnitMove, Memory>
    ensures { IfOk result (λ next. unit_next next ≡ starred_step kind.now pos head params pointer constant) }
{
    match kind {
        TokenKind::Name(text) => {
            let mut params = params;
            match push_param(alloc, &mut params, text, pos, pointer, constant) {
                Ok(()) => Ok(UnitMove::On(UnitFocus::ParamNamed(head, params))),
                Err(memory) => {
                    drop(head);
                    drop(params);
                    Err(memory)
                }
            }
        }
        TokenKind::Word(Word::Const) => {
            Ok(UnitMove::On(UnitFocus::Starred(head, params, pointer, true)))
        }
        TokenKind::Word(Word::Restrict) | TokenKind::Word(Word::Volatile) => {
            Ok(UnitMove::On(UnitFocus::Starred(head, params, pointer, constant)))
        }
        _ => Ok(refuse(head, params)),
    }
}

/// A token behind a parameter.
pub fn named_step(kind: &TokenKind, head: Head, params: ParamList) -> UnitMove
    ensures { unit_next result ≡ named_step kind.now head params }
{
    match kind {
        TokenKind::Mark(Mark::Comma) => {
            UnitMove::On(UnitFocus::ParamWords(head, params, None, false))
        }
        TokenKind::Mark(Mark::CloseParen) => { UnitMove::On(UnitFocus::ParamsClosed(head, params)) }
        _ => refuse(head, params),
    }
}
