ghost use Rattle.std.specs.Prelude.{◌≡◌, ℕ, ◌<◌, ◌≤◌, ◌↔◌, min, List, [], Some, Contains, length, IfOk};
ghost use Rattle.vx_world.specs.Counts.{next_count};
ghost use Rattle.vx_world.specs.Writing.{AppendsTaken, CountsWriteFaults};

use crate::calls::CallList;
use crate::writing::{Out, OutFault};
use std::alloc::Global;
use vx_base::Text;

/// A sink in memory that takes so many bytes a call at most, of which the calls that are listed fail.
#[derive(Debug, Drop)]
pub struct MemOut {
    /// All bytes that were taken.
    pub taken: Text,
    /// The numbers of the calls that fail.
    pub failing: CallList,
    /// How many bytes a call takes at most.
    pub most: usize,
    /// The number of the next call, which stands still at its end.
    pub next: u64,
    /// How many writes have failed.
    pub faults: u64,
    ghost takes_some: { 1 ≤ most },
}

impl MemOut {
    /// An empty sink to which no write has been made.
    pub fn new(alloc: Global, failing: CallList, most: usize) -> MemOut
        requires { 1 ≤ most }
        ensures taken { result.taken ≡ [] }
        ensures failing { result.failing ≡ failing }
        ensures most { result.most ≡ most }
        ensures next { result.next ≡ 0 }
        ensures faults { result.faults ≡ 0 }
    {
        MemOut {
            taken: Text {
                items: Vec::new(alloc),
            },
            failing,
            most,
            next: 0,
            faults: 0,
        }
    }

    /// All bytes that were taken.
    pub fn written(&self) -> &[u8]
        ensures { result.now ≡ self.now.taken }
    {
        self.taken.items.as_slice()
    }
}

impl Out for MemOut {
    ghost written = { λ s. Some s.taken };

    ghost faults = { λ s. s.faults };

    fn write(&mut self, piece: &[u8]) -> Result<usize, OutFault>
        requires { 0 < length piece.now }
        ensures some { IfOk result (λ count. 1 ≤ count) }
        ensures within { IfOk result (λ count. count ≤ length piece.now) }
        ensures appends { AppendsTaken result piece.now (Some self.old.taken) (Some self.new.taken) }
        ensures faults { CountsWriteFaults result self.old.faults self.new.faults }
        ensures faults_never_fall { self.old.faults ≤ self.new.faults }

        // A call fails exactly where its number is listed, and else it takes all that it may.
        ensures fails { (result ≡ Err OutFault.Failed) ↔ Contains self.old.failing self.old.next }
        ensures count { IfOk result (λ count. count ≡ min self.old.most (length piece.now)) }
        ensures next { self.new.next ≡ next_count self.old.next }
        ensures failed_once { result ≡ Err OutFault.Failed → self.new.faults ≡ next_count self.old.faults }
        ensures failing { self.new.failing ≡ self.old.failing }
        ensures most { self.new.most ≡ self.old.most }
    {
        let call = self.next;
        self.next = call.saturating_add(1);
        if self.failing.items.contains(&call) {
            self.faults = self.faults.saturating_add(1);
            return Err(OutFault::Failed);
        }
        let count = self.most.min(piece.len());
        match self.taken.items.extend_from_slice(&piece[..count]) {
            Ok(()) => Ok(count),
            Err(_) => Err(OutFault::Memory),
        }
    }
}
