ghost use Rattle.std.specs.Prelude.{◌≡◌, ◌≤◌, ⊤};

use std::alloc::AllocError;
use std::sync::atomic::{AtomicU64, Ordering};

/// A place that a core passes before each work-group that it starts, where a test may hold it.
pub trait Gate {
    /// Lets a core go on to a group. It always returns, and changes nothing that a contract names.
    fn pass(&self, core: u32, group: u32);
}

/// A gate that holds no core.
#[derive(Clone, Copy, Debug)]
pub struct NoGate;

impl Gate for NoGate {
    fn pass(&self, _core: u32, _group: u32) {}
}

/// The mark of an atomic that no core has written.
const UNMARKED: u64 = 0;

/// A gate that holds the first core that comes to it until another core has come, for a number of looks at an atomic. So two
/// cores that run at the same moment are seen to do so.
#[derive(Debug, Drop)]
pub struct HoldGate {
    // How often a held core looks.
    looks: u64,
    // The number of the first core that came, plus 1.
    first: AtomicU64,
    // Whether another core has come.
    other: AtomicU64,
    // Whether a held core has looked for the last time.
    out: AtomicU64,
}

impl HoldGate {
    /// A gate to which no core has come, with so many looks.
    pub fn new(looks: u64) -> HoldGate
        ensures { result.looks ≡ looks }
    {
        HoldGate {
            looks,
            first: AtomicU64::new(UNMARKED),
            other: AtomicU64::new(UNMARKED),
            out: AtomicU64::new(UNMARKED),
        }
    }

    /// Whether a core was held and no other came before its looks ran out.
    pub fn gave_up(&self) -> bool {
        self.out.load(Ordering::SeqCst) != UNMARKED
    }

    /// Holds the first core that comes, and lets each other go on. The answer is how often the core looked.
    pub fn wait(&self, core: u32) -> u64
        ensures { result ≤ self.entry.now.looks }
    {
        let mark = u64::from(core) + 1;
        match self
            .first
            .compare_exchange(UNMARKED, mark, Ordering::SeqCst, Ordering::SeqCst)
        {
            Ok(_) => self.hold(),
            Err(first) => {
                // The held core itself may pass again once it was let go.
                if first != mark {
                    self.other.store(1, Ordering::SeqCst);
                }
                0
            }
        }
    }

    /// Looks until another core has come, or the looks run out. The answer is how often it looked.
    fn hold(&self) -> u64
        ensures { result ≤ self.entry.now.looks }
    {
        for look in 0..self.looks {
            if self.other.load(Ordering::SeqCst) != UNMARKED {
                return look + 1;
            }
        }
        self.out.store(1, Ordering::SeqCst);
        self.looks
    }
}

impl Clone for HoldGate {
    ghost is_clone = { λ gate copy. copy.looks ≡ gate.looks };

    ghost is_infallible = { λ _. ⊤ };

    /// A gate with as many looks, to which no core has come.
    fn clone(&self) -> Result<HoldGate, AllocError> {
        Ok(HoldGate::new(self.looks))
    }
}

impl Gate for HoldGate {
    /// Holds the first core that comes, for at most so many looks.
    fn pass(&self, core: u32, _group: u32) {
        self.wait(core);
    }
}
