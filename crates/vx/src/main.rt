//! The program `vx`: does what its words ask for over the folder that it is run in, and writes the answer to standard
//! output. Everything that matters is in `vx_run`.
#![tactic(auto)]

use std::alloc::AllocError;
use std::env;
use std::process::ExitCode;
use vx_run::vx;
use vx_world::{FolderFiles, NoGate, StreamOut};

// The status where memory runs out before the call.
const OUT_OF_MEMORY: u8 = 9;

// The words behind the program's name. Words that are not text are no command, as no words are.
fn words_of(rt: &HostRuntime) -> Result<Vec<String>, AllocError> {
    let mut words = Vec::new(rt.alloc());
    if let Ok(all) = env::args(rt) {
        for word in all.skip(1) {
            words.push(word)?;
        }
    }
    Ok(words)
}

fn main(rt: HostRuntime) -> ExitCode {
    let Ok(words) = words_of(&rt) else {
        return ExitCode::from(OUT_OF_MEMORY);
    };
    let mut files = FolderFiles::new(&rt);
    let mut out = StreamOut::new(rt.stdout());
    let report = vx(&rt, rt.alloc(), &words, &mut files, &mut out, &NoGate);
    ExitCode::from(report.status)
}
