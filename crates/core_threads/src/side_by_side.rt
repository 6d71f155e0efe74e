ghost use Rattle.std.specs.Prelude.{◌≡◌, All, length};
ghost use Rattle.core_threads.specs.Joins.{AllRan};
ghost use Rattle.core_threads.specs.Works.{CanRun, HasRun};

use crate::jobs::Jobs;
use crate::work::CoreWork;
use group_dispenser::Dispenser;
use l1_cache::Evictor;
use std::thread;
use std::thread::Threads;
use vx_isa::Image;
use vx_world::Gate;
use warp_scheduler::Picker;

/// Lets every core run, each on a thread of its own where one can be made, and waits until all have stopped. It takes no memory.
pub fn run_all<
    R: Threads + Sync,
    J: Jobs + Sync,
    G: Gate + Sync,
    P: Picker + Send,
    E: Evictor + Send,
>(
    rt: &R,
    image: &Image,
    jobs: &J,
    dispenser: &Dispenser,
    gate: &G,
    works: &mut [CoreWork<'_, P, E>],
)
    requires { All (λ w. CanRun dispenser.now (J.groups jobs.now) w) works.old }
    ensures { AllRan E.evicts P.begins P.picks image.now (J.job_of jobs.now) dispenser.now
        (J.groups jobs.now) works.old works.new }
{
    if works.is_empty() {
        return;
    }
    let threads = works.len();
    thread::for_each_mut(
        rt,
        works,
        threads,
        &|_, work: &mut CoreWork<'_, P, E>|
            requires { CanRun dispenser.now (J.groups jobs.now) work.now }
            ensures { HasRun E.evicts P.begins P.picks image.entry.now (J.job_of jobs.entry.now)
                dispenser.entry.now (J.groups jobs.entry.now) work.entry.now work.exit.now }
        { work.run(image, jobs, dispenser, gate) },
    );
}
