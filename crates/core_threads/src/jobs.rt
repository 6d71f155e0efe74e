ghost use Rattle.std.specs.Prelude.{◌≡◌, ◌<◌, ◌≤◌};

use vx_core::GroupJob;

/// The groups of a launch, and the job that each is for a core.
pub trait Jobs {
    ghost use Rattle.std.specs.Prelude.{ℕ};
    ghost use Rattle.core_threads.specs.Works.{Fits};
    ghost use Rattle.vx_core.specs.declared.job.GroupJob.{GroupJob};

    // How many groups there are.
    ghost groups: { Self → ℕ };

    // The job of a group.
    ghost job_of: { Self → ℕ → GroupJob };

    /// How many groups there are, at most 65,536.
    fn count(&self) -> u32
        ensures is { result ≡ groups self.now }
        ensures few { result ≤ 65536 };

    /// The job of a group.
    fn job(&self, group: u32) -> GroupJob
        requires { group < groups self.now }
        ensures is { result ≡ job_of self.now group }
        ensures fits { Fits group result };
}
