//! What the front says of a text.
//!
//! - `tokens`: its tokens as `push_kind` tells them, or its fault.
//! - `same`: the wanted text if both have the same tokens, and else its tokens or its fault.
//! - `parse`: `ok`, or the fault of the lexer or the parser.
//! - `file`: `ok`, or the fault for which the file is refused.
//! - `tree`: the wanted words, which ` .. ` parts, if the tree has them in this order, and else its fault or `other`.
//! - `typed`: the same of the program.
//! - `image`: how many words of the image of kernel `k` part a warp, or why it has no image.

ghost use Rattle.std.specs.Prelude.{◌≤◌, length};

use crate::tokens::tokens_text;
use kernel_images::compile;
use ocl_ast::Unit;
use ocl_lex::lex;
use ocl_parser::parse;
use rv_encode::decode;
use std::alloc::{AllocError, Global};
use vx_cc::{SourceFault, front};
use vx_isa::Instr;

/// The most bytes that a file may have.
const LIMIT: usize = 1_048_576;

/// What is said of a text.
pub fn answer(alloc: Global, ask: &str, wanted: &str, text: &str) -> Result<String, AllocError> {
    let bytes = text.as_bytes();
    if bytes.len() > LIMIT {
        return String::from_str(alloc, "too long");
    }
    match ask {
        "tokens" => tokens_text(alloc, bytes),
        "same" => same_text(alloc, wanted, bytes),
        "parse" => parse_text(alloc, bytes),
        "file" => file_text(alloc, bytes),
        "tree" => tree_text(alloc, wanted, bytes),
        "typed" => typed_text(alloc, wanted, bytes),
        "image" => image_text(alloc, bytes),
        _ => String::from_str(alloc, "nothing is asked"),
    }
}

/// The wanted text if another has the same tokens.
fn same_text(alloc: Global, wanted: &str, text: &[u8]) -> Result<String, AllocError>
    requires { length text.now ≤ 1048576 }
{
    let said = tokens_text(alloc, text)?;
    if wanted.as_bytes().len() > LIMIT {
        return Ok(said);
    }
    let same = tokens_text(alloc, wanted.as_bytes())?;
    if said.as_str() == same.as_str() {
        return String::from_str(alloc, wanted);
    }
    Ok(said)
}

/// A fault as it is told.
fn fault_text(alloc: Global, fault: SourceFault) -> Result<String, AllocError> {
    let pos = fault.pos;
    format!(in alloc; "{} {}:{}", fault.kind, pos.line, pos.col)
}

/// Whether a file is accepted, or its fault.
pub fn file_text(alloc: Global, text: &[u8]) -> Result<String, AllocError>
    requires { length text.now ≤ 1048576 }
{
    match front(alloc, text) {
        Ok(_program) => String::from_str(alloc, "ok"),
        Err(fault) => fault_text(alloc, fault),
    }
}

/// The tree of a text, if it has one.
fn unit_of(alloc: Global, text: &[u8]) -> Option<Unit>
    requires { length text.now ≤ 1048576 }
{
    let tokens = lex(alloc, text).ok()?;
    parse(alloc, &tokens).ok()
}

/// Whether a text has a tree, or its fault.
fn parse_text(alloc: Global, text: &[u8]) -> Result<String, AllocError>
    requires { length text.now ≤ 1048576 }
{
    match unit_of(alloc, text) {
        Some(_unit) => String::from_str(alloc, "ok"),
        None => file_text(alloc, text),
    }
}

/// Whether some words, with ` .. ` between them, stand in a text in this order.
fn has_in_order(text: &str, words: &str) -> bool {
    let mut rest = text;
    for word in words.split(" .. ") {
        match rest.split_once(word) {
            Some((_before, after)) => rest = after,
            None => return false,
        }
    }
    true
}

/// The wanted words if they stand in what is told in this order.
fn words_in(alloc: Global, wanted: &str, told: &str) -> Result<String, AllocError> {
    if has_in_order(told, wanted) {
        return String::from_str(alloc, wanted);
    }
    String::from_str(alloc, "other")
}

/// The wanted words if they stand in the tree of a text in this order.
fn tree_text(alloc: Global, wanted: &str, text: &[u8]) -> Result<String, AllocError>
    requires { length text.now ≤ 1048576 }
{
    match unit_of(alloc, text) {
        Some(unit) => words_in(alloc, wanted, format!(in alloc; "{unit:?}")?.as_str()),
        None => file_text(alloc, text),
    }
}

/// The wanted words if they stand in the first function of a text's program in this order.
fn typed_text(alloc: Global, wanted: &str, text: &[u8]) -> Result<String, AllocError>
    requires { length text.now ≤ 1048576 }
{
    match front(alloc, text) {
        Ok(program) => {
            let functions = program.functions.as_slice();
            let bodies = functions.first().map(|function| &function.body);
            words_in(alloc, wanted, format!(in alloc; "{bodies:?}")?.as_str())
        }
        Err(fault) => fault_text(alloc, fault),
    }
}

/// How many words part a warp.
fn count_splits(words: &[u32]) -> u32 {
    let mut count = 0_u32;
    for word in words {
        if let Some(Instr::Split { .. }) = decode(*word) {
            count = count.saturating_add(1);
        }
    }
    count
}

/// How many words of the image of a text's kernel `k` part a warp, or why it has no image.
fn image_text(alloc: Global, text: &[u8]) -> Result<String, AllocError>
    requires { length text.now ≤ 1048576 }
{
    let program = match front(alloc, text) {
        Ok(program) => program,
        Err(fault) => return fault_text(alloc, fault),
    };
    match compile(alloc, &program, b"k") {
        Ok(image) => format!(in alloc; "{} splits", count_splits(image.words.items.as_slice())),
        Err(fault) => format!(in alloc; "{fault}"),
    }
}
