//! The program `front_speed`: takes a text from standard input as far as its word says, for measurements of speed (`bench/`). The
//! words are `text` (it is read alone), `tokens`, `tree` (its functions), `bodies` (their blocks typed), `totals` (how large each
//! is with its calls expanded) and `program`. It prints the bytes, and then the tokens and the functions as far as it has come.
//! It ends with 1 where the text is refused on the way, and with 2 where its word is none of these or the text is too long.
#![tactic(auto)]

ghost use Rattle.std.specs.Prelude.{◌≤◌, length};

use ocl_ast::Unit;
use ocl_check::bodies::typed_bodies;
use ocl_lex::lex;
use ocl_parser::parse;
use ocl_types::bodies::TypedBody;
use ocl_types::file::{all_resolved, limited_totals};
use ocl_types::functions::Functions;
use std::alloc::Global;
use std::env;
use std::io::{Read, Result as IoResult};
use std::process::ExitCode;
use vx_cc::front;

/// How far a text is taken.
#[derive(Clone, Copy, PartialEq, Eq)]
enum Stage {
    Text,
    Tokens,
    Tree,
    Bodies,
    Totals,
    Program,
}

/// How much of a text there is, as far as it was taken.
#[derive(Clone, Copy)]
struct Counts {
    tokens: usize,
    functions: usize,
}

/// The most bytes of a text.
const MOST_BYTES: usize = 1_048_576;
/// More functions than a text has.
const MOST_FUNCTIONS: usize = 2_000_000;

fn stage_of(word: &str) -> Option<Stage> {
    match word {
        "text" => Some(Stage::Text),
        "tokens" => Some(Stage::Tokens),
        "tree" => Some(Stage::Tree),
        "bodies" => Some(Stage::Bodies),
        "totals" => Some(Stage::Totals),
        "program" => Some(Stage::Program),
        _ => None,
    }
}

/// Whether there are the typed blocks of a file's functions.
fn file_bodies(alloc: Global, unit: &Unit) -> Option<Vec<TypedBody>> {
    if unit.functions.len() > MOST_FUNCTIONS {
        return None;
    }
    let Ok(functions) = Functions::new(alloc, unit.functions.as_slice()) else {
        return None;
    };
    typed_bodies(alloc, &functions).ok()
}

/// Whether the functions of a file are within the limits.
fn is_limited(alloc: Global, unit: Unit, bodies: Vec<TypedBody>) -> bool {
    let Ok(functions) = all_resolved(alloc, unit.functions.items, bodies) else {
        return false;
    };
    functions.len() <= MOST_FUNCTIONS && limited_totals(alloc, functions.as_slice()).is_ok()
}

/// The counts of a text that is taken no further than to its totals.
fn counts_up_to(alloc: Global, stage: Stage, text: &[u8]) -> Option<Counts>
    requires { length text.now ≤ 1048576 }
{
    let Ok(tokens) = lex(alloc, text) else {
        return None;
    };
    let tokens_alone = Counts {
        tokens: tokens.len(),
        functions: 0,
    };
    if stage == Stage::Tokens {
        return Some(tokens_alone);
    }
    let Ok(unit) = parse(alloc, &tokens) else {
        return None;
    };
    let counts = Counts {
        functions: unit.functions.len(),
        ..tokens_alone
    };
    if stage == Stage::Tree {
        return Some(counts);
    }
    let bodies = file_bodies(alloc, &unit)?;
    if stage == Stage::Bodies || is_limited(alloc, unit, bodies) {
        return Some(counts);
    }
    None
}

/// The counts of a text that is taken to a stage, or none where it is refused.
fn counts_at(alloc: Global, stage: Stage, text: &[u8]) -> Option<Counts>
    requires { length text.now ≤ 1048576 }
{
    match stage {
        Stage::Text => Some(Counts {
            tokens: 0,
            functions: 0,
        }),
        Stage::Program => match front(alloc, text) {
            Ok(program) => Some(Counts {
                tokens: 0,
                functions: program.functions.len(),
            }),
            Err(_fault) => None,
        },
        _ => counts_up_to(alloc, stage, text),
    }
}

/// The bytes of standard input, of which more than a text's are cut.
fn read_text(rt: &HostRuntime) -> IoResult<Vec<u8>> {
    let mut text = Vec::new(rt.alloc());
    rt.stdin()
        .take(MOST_BYTES as u64 + 1)
        .read_to_end(&mut text)?;
    Ok(text)
}

fn main(rt: HostRuntime) -> ExitCode {
    let Ok(mut words) = env::args(&rt) else {
        return ExitCode::from(9);
    };
    let _program = words.next();
    let Some(word) = words.next() else {
        return ExitCode::from(2);
    };
    let Some(stage) = stage_of(word.as_str()) else {
        return ExitCode::from(2);
    };
    let Ok(text) = read_text(&rt) else {
        return ExitCode::from(9);
    };
    if text.len() > MOST_BYTES {
        return ExitCode::from(2);
    }
    let Some(counts) = counts_at(rt.alloc(), stage, text.as_slice()) else {
        return ExitCode::from(1);
    };
    match println!(rt; "{} {} {}", text.len(), counts.tokens, counts.functions) {
        Ok(()) => ExitCode::from(0),
        Err(_error) => ExitCode::from(9),
    }
}
