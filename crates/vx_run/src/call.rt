ghost use Rattle.std.specs.Prelude.{◌≡◌, map, string_bytes};
ghost use Rattle.vx_run.specs.Delivery.{Delivers, IsReportOf};
ghost use Rattle.vx_run.specs.Meets.{VxMeets};

use crate::answer::answer;
use crate::deliver::deliver;
use crate::lines::cause_status;
use crate::report::{Activity, Cause, Report};
use crate::stages::{Answer, Stop};
use std::alloc::Global;
use std::thread::Threads;
use vx_base::Memory;
use vx_world::{Files, Gate, Out, OutFault};

fn report(cause: Cause, activity: Activity) -> Report
    ensures { IsReportOf cause activity result }
{
    Report {
        status: cause_status(&cause),
        cause,
        activity,
    }
}

// Writes the text of an answer, and reports its cause if it was written whole.
fn deliver_answer<O: Out>(out: &mut O, answer: Answer) -> Report
    ensures { Delivers answer (O.written out.old) (O.written out.new) (O.faults out.old) (O.faults out.new) result }
{
    let Answer {
        cause,
        text,
        activity,
    } = answer;
    match deliver(out, text.as_slice()) {
        Ok(()) => report(cause, activity),
        Err(OutFault::Failed) => report(Cause::WriteFault { faults: 1 }, activity),
        Err(OutFault::Memory) => report(Cause::Memory, activity),
    }
}

/// Does what the words ask for: reads files, compiles and runs kernels, and writes the answer.
///
/// `words` are the words behind the program's name. `rt` lends threads, of which a launch of one warp needs none, and
/// `gate` holds no one yet. The report says why the call ended; `specs/Meets.antt` says what that means.
pub fn vx<R: Threads + Sync, F: Files, O: Out, G: Gate + Sync>(
    _rt: &R,
    alloc: Global,
    words: &[String],
    files: &mut F,
    out: &mut O,
    _gate: &G,
) -> Report
    ensures { VxMeets (F.held files.old) (map string_bytes words.now)
        (record { read_faults = F.faults files.old; misses = F.misses files.old; write_faults = O.faults out.old; written = O.written out.old })
        (record { read_faults = F.faults files.new; misses = F.misses files.new; write_faults = O.faults out.new; written = O.written out.new })
        result }
{
    match answer(alloc, files, words) {
        Ok(answer) => deliver_answer(out, answer),
        Err(Stop::Refused(cause)) => match Answer::refusal(alloc, cause) {
            Ok(answer) => deliver_answer(out, answer),
            Err(Memory) => report(Cause::Memory, Activity::idle(alloc)),
        },
        Err(Stop::Memory) => report(Cause::Memory, Activity::idle(alloc)),
    }
}
