//! The buffers of a run before its launch.

ghost use Rattle.std.specs.Prelude.{◌≡◌, ◌*◌, ◌≤◌, ◌<◌, length, replicate, List, [], ◌∷◌, ℕ, All, IfOk, IfErr};
ghost use Rattle.vx_run.specs.Answers.{Chosen, Brings, FromArguments, FromBuffers, Outcome};
ghost use Rattle.vx_run.specs.Stages.{StageFaults, StageMisses, StopsAt};
ghost use Rattle.vx_words.specs.Words.{IsOrigin};
ghost use Rattle.vx_words.specs.declared.run_words.BufWord.{BufWord};

use crate::reading::read_file;
use crate::report::{BufferKind, Cause};
use crate::stages::Stop;
use std::alloc::Global;
use vx_base::{Memory, Text};
use vx_words::{BufFrom, BufWord, RunWords};
use vx_world::Files;

fn wrong_length(index: u32, bytes: u32) -> Stop
    ensures { result ≡ Stop.Refused (Cause.Buffer index (BufferKind.Length bytes 4)) }
{
    Stop::Refused(Cause::Buffer {
        index,
        kind: BufferKind::Length { bytes, size: 4 },
    })
}

fn zero_bytes(alloc: Global, count: usize) -> Result<Text, Memory>
    ensures { IfOk result (λ bytes. bytes ≡ replicate count 0) }
{
    Ok(Text {
        items: vec![in alloc; 0; count]?,
    })
}

// The bytes of one buffer, where they are an int for each work-item.
fn load_buffer<F: Files>(
    alloc: Global,
    files: &mut F,
    index: u32,
    word: &BufWord,
    run: &RunWords,
) -> Result<Text, Stop>
    requires origin { IsOrigin word.now.from }
    requires items { run.now.items ≤ 32 }
    ensures held { F.held files.new ≡ F.held files.old }
    ensures brings { IfOk result (λ bytes. Brings (F.held files.old) word.now.from bytes) }
    ensures length { IfOk result (λ bytes. length bytes ≡ 4 * run.now.items) }
    ensures stop { IfErr result (λ stop. (k : Chosen) (more : List BufWord) (contents : List (List ℕ))
        → StopsAt (FromBuffers (F.held files.old) run.now k index (word.now ∷ more) contents) stop) }
    ensures faults { StageFaults result (F.faults files.old) (F.faults files.new) }
    ensures misses { StageMisses result (F.misses files.old) (F.misses files.new) }
{
    let wanted = 4 * run.items;
    match &word.from {
        BufFrom::Zero(count) => {
            if *count != run.items {
                return Err(wrong_length(index, 4 * *count));
            }
            Ok(zero_bytes(alloc, wanted as usize)?)
        }
        BufFrom::File(path) => {
            let items = read_file(alloc, files, path, wanted as usize + 1)?;
            if items.len() != wanted as usize {
                return Err(wrong_length(index, items.len() as u32));
            }
            Ok(Text { items })
        }
    }
}

/// The bytes of the buffers in order, where each has an int for each work-item.
pub fn load_buffers<F: Files>(
    alloc: Global,
    files: &mut F,
    run: &RunWords,
) -> Result<Vec<Text>, Stop>
    requires origins { All (λ b. IsOrigin b.from) run.now.buffers }
    requires few { length run.now.buffers ≤ 16 }
    requires items { run.now.items ≤ 32 }
    ensures held { F.held files.new ≡ F.held files.old }
    ensures count { IfOk result (λ contents. length contents.items ≡ length run.now.buffers) }
    ensures lengths { IfOk result (λ contents. All (λ bytes. length bytes ≡ 4 * run.now.items) contents.items) }
    ensures loaded { IfOk result (λ contents. (k : Chosen) (o : Outcome) → FromArguments run.now k contents.items o
        → FromBuffers (F.held files.old) run.now k 0 run.now.buffers [] o) }
    ensures stop { IfErr result (λ stop. (k : Chosen) → StopsAt (FromBuffers (F.held files.old) run.now k 0 run.now.buffers []) stop) }
    ensures faults { StageFaults result (F.faults files.old) (F.faults files.new) }
    ensures misses { StageMisses result (F.misses files.old) (F.misses files.new) }
{
    let mut contents = Vec::new(alloc);
    for (index, word) in run.buffers.items.iter().enumerate() {
        let bytes = load_buffer(alloc, files, index as u32, word, run)?;
        contents.push(bytes)?;
    }
    Ok(contents)
}
